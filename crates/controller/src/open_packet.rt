// The open packet: its phases, its sum, and where its data bytes go.
ghost use Rattle.std.specs.Prelude.{◌≡◌, slice_set};
ghost use Rattle.bus.specs.Bus as spec;
ghost use Rattle.controller.specs.BusState.{unescaped as out_of_escape};

use bus::Phase;

pub(crate) fn is_idle(phase: Phase) -> bool
    ensures { result ≡ spec.is_idle phase }
{
    matches!(phase, Phase::Idle)
}

#[tactic(auto, unfolding(bus::specs::Bus::after_length))]
pub(crate) fn after_length(count: u8) -> Phase
    ensures { result ≡ spec.after_length count }
{
    if count == 0 {
        Phase::Checksum
    } else {
        Phase::Data(count)
    }
}

#[tactic(auto, unfolding(bus::specs::Bus::after_data))]
pub(crate) fn after_data(left: u8) -> Phase
    ensures { result ≡ spec.after_data left }
{
    if left <= 1 {
        Phase::Checksum
    } else {
        Phase::Data(left - 1)
    }
}

// The byte that an escape stands for.
#[tactic(auto, unfolding(crate::specs::BusState::unescaped))]
pub(crate) fn unescaped(byte: u8) -> u8
    ensures { result ≡ out_of_escape byte }
{
    if byte == 0x00 { 0xA5 } else { byte }
}

// Keeps a data byte at its place; a place past the end is left out. The first test alone tells that the place is within the data in
// every controller that exchanges lead to, and the loop rests on it; the second is for the others.
pub(crate) fn keep(body: &mut [u8; 255], count: u8, left: u8, value: u8)
    ensures { body.new ≡ slice_set body.old (spec.place count left) value }
{
    let at = count.saturating_sub(left) as usize;
    if left.wrapping_sub(1) < count || at < body.len() {
        body[at] = value;
    }
}
