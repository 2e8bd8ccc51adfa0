// The steps of an exchange, on the part of a controller that changes from byte to byte. How they are written decides how
// fast the loop over them is: docs/COMPARISON.md says what not to disturb.
ghost use Rattle.std.specs.Prelude.{◌≡◌, ℕ, ◌<◌, List};
ghost use Rattle.bus.specs.Bus as spec;
ghost use Rattle.controller.specs.BusState.{state_of, assembled, on_state, Steps, ended_with};

use crate::open_packet::{after_data, after_length, is_idle, keep, unescaped};
use bus::{Collected, Controller, Outgoing, Performed, Phase, REPLY_LIMIT, ReplyBytes, response};
use number::byte;
use registers::perform;
use settings::{Flag, Settings, StatusBytes};

// A controller but for its two arrays and its settings, of which it has the status bits.
#[derive(Clone, Copy)]
pub struct BusState {
    pub phase: Phase,
    pub escape: bool,
    pub command: u8,
    pub count: u8,
    pub sum: u8,
    pub len: u8,
    pub sent: u8,
    pub status: StatusBytes,
}

// What a byte leads to: the next state, or the end of a packet, told by its checksum byte out of its escape. Neither is a refusal,
// so it is no Result.
#[derive(Clone, Copy)]
pub enum Step {
    Next(BusState),
    Checksum(u8),
}

impl BusState {
    pub(crate) fn of(c: Controller) -> BusState
        ensures { result ≡ state_of c }
    {
        BusState {
            phase: c.phase,
            escape: c.escape,
            command: c.packet.command,
            count: c.packet.count,
            sum: c.packet.sum,
            len: c.reply.len,
            sent: c.reply.sent,
            status: c.settings.status,
        }
    }

    pub(crate) fn assembled(
        self,
        mut settings: Settings,
        body: [u8; 255],
        bytes: [u8; REPLY_LIMIT],
    ) -> Controller
        ensures { result ≡ assembled self settings body bytes }
    {
        settings.status = self.status;
        Controller {
            phase: self.phase,
            escape: self.escape,
            packet: Collected {
                command: self.command,
                count: self.count,
                sum: self.sum,
                body,
            },
            reply: Outgoing {
                bytes,
                len: self.len,
                sent: self.sent,
            },
            settings,
        }
    }

    #[tactic(auto, unfolding(settings::specs::Settings::flagged))]
    fn flagged(self, flag: Flag) -> BusState
        ensures { result ≡ on_state (λ c. spec.flagged c flag) self }
    {
        BusState {
            status: self.status.with_flag(flag),
            ..self
        }
    }

    fn started(self) -> BusState
        ensures { result ≡ on_state spec.started self }
    {
        BusState {
            phase: Phase::Command,
            escape: false,
            len: 0,
            sent: 0,
            ..self
        }
    }

    #[tactic(auto, unfolding(bus::specs::Bus::start))]
    fn start(self) -> BusState
        ensures { result ≡ on_state spec.start self }
    {
        if is_idle(self.phase) {
            return self.started();
        }
        self.flagged(Flag::Incomplete).started()
    }

    #[tactic(auto, unfolding(bus::specs::Bus::feed_at))]
    fn with_command(self, value: u8) -> BusState
        ensures { result ≡ on_state (λ c. spec.feed_at Phase.Command c value) self }
    {
        BusState {
            phase: Phase::Length,
            escape: false,
            command: value,
            count: 0,
            sum: value,
            ..self
        }
    }

    #[tactic(auto, unfolding(bus::specs::Bus::feed_at))]
    fn with_length(self, value: u8) -> BusState
        ensures { result ≡ on_state (λ c. spec.feed_at Phase.Length c value) self }
    {
        BusState {
            phase: after_length(value),
            escape: false,
            count: value,
            sum: self.sum.wrapping_add(value),
            ..self
        }
    }

    #[tactic(auto, unfolding(bus::specs::Bus::feed_at))]
    fn with_data(self, left: u8, value: u8) -> BusState
        ensures { result ≡ on_state (λ c. spec.feed_at (Phase.Data left) c value) self }
    {
        BusState {
            phase: after_data(left),
            escape: false,
            sum: self.sum.wrapping_add(value),
            ..self
        }
    }

    // A byte of the open packet, out of its escape.
    #[tactic(auto, unfolding(bus::specs::Bus::feed_at))]
    fn feed(self, value: u8, body: &mut [u8; 255]) -> Step
        ensures { (bytes : List ℕ) → Steps (λ c. spec.feed c value) self body.old bytes result body.new bytes }
    {
        match self.phase {
            Phase::Idle => Step::Next(self),
            Phase::Command => Step::Next(self.with_command(value)),
            Phase::Length => Step::Next(self.with_length(value)),
            Phase::Data(left) => {
                keep(body, self.count, left, value);
                Step::Next(self.with_data(left, value))
            }
            Phase::Checksum => Step::Checksum(value),
        }
    }

    #[tactic(auto, unfolding(settings::specs::Settings::flagged))]
    fn escape_open(self) -> BusState
        ensures { result ≡ on_state spec.escape_open self }
    {
        BusState {
            escape: true,
            status: self.status.with_flag(Flag::EscapeSeen),
            ..self
        }
    }

    fn inside(self, byte: u8, body: &mut [u8; 255]) -> Step
        ensures { (bytes : List ℕ) → Steps (λ c. spec.inside c byte) self body.old bytes result body.new bytes }
    {
        if self.escape {
            return self.feed(unescaped(byte), body);
        }
        if byte == 0x5A {
            return Step::Next(self.escape_open());
        }
        self.feed(byte, body)
    }

    #[tactic(auto, unfolding(bus::specs::Bus::outside))]
    fn outside(self, byte: u8) -> BusState
        ensures { result ≡ on_state (λ c. spec.outside c byte) self }
    {
        if byte == 0x00 {
            return self;
        }
        self.flagged(Flag::BytesIgnored)
    }

    fn one_sent(self) -> BusState
        requires { self.sent < self.len }
        ensures { result ≡ on_state spec.one_sent self }
    {
        BusState {
            sent: self.sent + 1,
            ..self
        }
    }

    // The byte sent out.
    #[tactic(auto, unfolding(bus::specs::Bus::out))]
    pub(crate) fn out(self, bytes: &[u8; REPLY_LIMIT]) -> u8
        ensures { (σ : Settings) (body : List ℕ) → result ≡ spec.out (assembled self σ body bytes.now) }
    {
        if self.sent < self.len {
            return byte(bytes, self.sent as usize);
        }
        0xFF
    }

    // The byte in.
    pub(crate) fn after(self, byte: u8, body: &mut [u8; 255], bytes: &mut [u8; REPLY_LIMIT]) -> Step
        ensures { Steps (λ c. spec.after c byte) self body.old bytes.old result body.new bytes.new }
    {
        if byte == 0xA5 {
            *bytes = [0; REPLY_LIMIT];
            return Step::Next(self.start());
        }
        if self.sent < self.len {
            return Step::Next(self.one_sent());
        }
        if is_idle(self.phase) {
            return Step::Next(self.outside(byte));
        }
        self.inside(byte, body)
    }

    // What a checksum byte makes of the settings, and the reply to it. A wrong sum is found before there is a command, so it is
    // none of registers' failures.
    #[tactic(auto, unfolding(bus::specs::Bus::judge))]
    pub(crate) fn judged(self, sum: u8, mut settings: Settings, body: &[u8; 255]) -> Performed
        ensures { (bytes : List ℕ) → ended_with self result body.now ≡ spec.judge (assembled self settings body.now bytes) sum }
    {
        settings.status = self.status;
        if sum == self.sum {
            return perform(settings, self.command, &body[..self.count as usize]);
        }
        Performed {
            settings: settings.flagged(Flag::WrongChecksum),
            reply: response(0x02),
        }
    }

    pub(crate) fn ended(self, settings: Settings, reply: ReplyBytes) -> BusState
        ensures { result ≡ on_state (λ c. spec.ended c settings reply) self }
    {
        BusState {
            phase: Phase::Idle,
            escape: false,
            len: reply.len,
            sent: 0,
            status: settings.status,
            ..self
        }
    }
}
