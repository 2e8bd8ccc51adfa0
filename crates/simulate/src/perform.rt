// What a line asks for is done, and its answer told.
use crate::asked::{Action, Asked, Made, OfficesTask, Said, Task, Told};
use crate::frames::Memory;
use crate::print::Printed;
use crate::whole::LINE_LIMIT;
use crate::world::World;
use crate::{
    batches, bench, describe, encoding, ends, explain, held, offices, packets, print, show, streams,
};
use calls::Call;
use frame::SessionId;
use packet::Access;
use wrapping::Receiver;

// Each function below is lent what it changes or tells, one by one, and no more.
pub(crate) fn perform(
    world: &mut World,
    asked: Asked,
    memory: &mut Memory,
    out: &mut String,
) -> Printed {
    let Asked { action, lent } = asked;
    match action {
        Action::Call(call) => ends::call(
            world,
            call,
            memory.given.as_slice(),
            lent,
            &mut memory.written,
            out,
        ),
        Action::Several(several) => batches::call(world, several, lent, memory, out),
        Action::Task(task) => perform_task(world, task, memory, out),
        Action::Offices(task) => {
            match task {
                OfficesTask::Use(n) => offices::put_in_use(world, n),
                OfficesTask::Fresh => start_anew(world, memory),
            }
            ok(out)
        }
        Action::Say(said) => say(world, said, lent, memory.given.as_slice(), out),
    }
}

// A function of its own: as an arm above, it had every other line clear as many bytes as a world has.
fn start_anew(world: &mut World, memory: &mut Memory) {
    *world = World::fresh();
    memory.written.clear();
}

fn ok(out: &mut String) -> Printed {
    out.push_str("ok\n")
}

fn perform_task(world: &mut World, task: Task, memory: &mut Memory, out: &mut String) -> Printed {
    match task {
        Task::Many(n) => {
            ends::many(&mut world.ends, n);
            ok(out)
        }
        Task::Room(n) => {
            world.room = n;
            ok(out)
        }
        Task::Bus(reply) => bus(world, reply, memory.given.as_slice(), out),
        Task::Restart(session) => {
            restart(world, session);
            ok(out)
        }
        Task::Stream(to, piece) => streams::stream(
            world,
            to,
            piece,
            memory.given.as_slice(),
            &mut memory.written,
            out,
        ),
    }
}

// bus BYTES, exchange write BYTES, exchange read BYTES
fn bus(world: &mut World, reply: Option<Access>, bytes: &[u8], out: &mut String) -> Printed {
    let mut sent = [0u8; LINE_LIMIT];
    world.bench = controller::exchange_all(world.bench, bytes, &mut sent);
    bench::told(out, reply, text::part(&sent, 0, bytes.len()))
}

// restart, restart N
fn restart(world: &mut World, session: SessionId) {
    world.ends = calls::run(world.ends, Call::Restart(session), b"", &mut []).state;
    world.receivers.cab = Receiver::new();
}

fn say(world: &World, said: Said, lent: Option<usize>, bytes: &[u8], out: &mut String) -> Printed {
    match said {
        Said::Told(told) => tell(world, told, out),
        Said::Made(made) => make(made, lent, bytes, out),
        Said::Explained(refusal) => explain::told(out, refusal),
    }
}

fn tell(world: &World, told: Told, out: &mut String) -> Printed {
    match told {
        Told::Show => show::show(out, &world.ends),
        Told::Describe => describe::describe(out, &world.ends),
        Told::Progress => writeln!(out, "{}", show::progress(&world.ends.office)),
        Told::Held(holder, register) => {
            held::held(out, &world.settings(holder), register)?;
            out.push_str("\n")
        }
        Told::Dropped => writeln!(out, "dropped {}", world.receivers.bench.dropped),
    }
}

fn make(made: Made, lent: Option<usize>, bytes: &[u8], out: &mut String) -> Printed {
    match made {
        Made::Packet(id, access) => packets::packet(out, id, access, lent, bytes),
        Made::Reply(access) => packets::reply(out, access, bytes),
        Made::Encoded => print::named_bytes(out, "frame", bytes),
        Made::Decoded(end) => encoding::decoded(out, end, bytes),
        Made::Wrapped(room) => streams::wrapped(out, room, bytes),
    }
}
