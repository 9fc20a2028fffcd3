//! Recipients that come into memory by batches, where there is room for ten.
ghost use Rattle.q_message.specs.NewFile.{is_receiver};
ghost use Rattle.std.specs.List.{list_all};
ghost use Rattle.std.specs.Prelude.{◌≡◌, true, IfOk};

use crate::drive::{Stop, deliver_all, live};
use q_message::write_message;
use q_model::{Address, Addresses, Area, Bytes, Head, MOST_RECIPIENTS, Name, NoMemory, Receiver};
use q_silent_host::SilentHost;
use q_stream::MemSource;
use std::alloc::Global;
use std::test::Fail;

const ROOM_FOR_TEN: &str = "qmgr_message_recipient_limit = 10";

/// A mail to twelve recipients.
const TWELVE: &str = "\
at 1000
mail a@x.example r0@y.example r1@y.example r2@y.example r3@y.example r4@y.example r5@y.example \
r6@y.example r7@y.example r8@y.example r9@y.example r10@y.example r11@y.example
end
";

/// What follows the reply to the first ten, where the file says another domain of the last two.
const READ_AGAIN: &str = "
reply 1 up ok ok ok ok ok ok ok ok ok ok
mark 00000001-00000001 0
mark 00000001-00000001 1
mark 00000001-00000001 2
mark 00000001-00000001 3
mark 00000001-00000001 4
mark 00000001-00000001 5
mark 00000001-00000001 6
mark 00000001-00000001 7
mark 00000001-00000001 8
mark 00000001-00000001 9
sync 00000001-00000001
load 00000001-00000001 10 12
start 2 00000001-00000001 smtp z.example 10 11
";

/// The twelve recipients, the last two at another domain.
fn at_two_domains(alloc: Global) -> Result<Addresses, Stop>
    ensures { IfOk result (λ to. list_all is_receiver to ≡ true) }
{
    let mut to = Addresses::new(alloc);
    for i in 0..12u32 {
        let domain = if i < 10 { "y" } else { "z" };
        let text = format!(in alloc; "r{i}@{domain}.example")?;
        let Some(address) = Address::new(text.as_bytes()) else {
            return Err(Stop::Conf);
        };
        to.push(Receiver {
            address,
            original: None,
        })?;
    }
    Ok(to)
}

/// The queue file of the mail, with these recipients.
fn file_to(alloc: Global, to: &Addresses) -> Result<Bytes, NoMemory>
    requires { list_all is_receiver to.now ≡ true }
{
    let head = Head {
        sender: Address::new(b"a@x.example"),
        arrival: 1000,
    };
    if to.len() < 1 || to.len() > MOST_RECIPIENTS as usize {
        return Err(NoMemory);
    }
    write_message(alloc, &head, to, b"")
}

fn delivered(alloc: Global, host: &mut SilentHost) -> Result<(), Stop> {
    let mut source = MemSource::new(alloc, TWELVE.as_bytes(), 4096, &[])?;
    let engine = live(alloc, host, ROOM_FOR_TEN, "", &mut source)?;
    let file = file_to(alloc, &at_two_domains(alloc)?)?;
    let Some(message) = Name::new(b"00000001-00000001") else {
        return Err(Stop::Conf);
    };
    host.put(Area::Active, message, file.as_slice())?;
    deliver_all(alloc, host, ROOM_FOR_TEN, engine)
}

#[test]
fn recipients_not_in_memory_are_read_from_the_file(rt: HostRuntime) -> Result<(), Fail> {
    let alloc = rt.alloc();
    let mut host = SilentHost::new(alloc);
    let end = delivered(alloc, &mut host);
    assert!(rt; end == Ok(()), "{end:?}");
    assert!(rt; host.told().contains(READ_AGAIN), "{}", host.told());
    Ok(())
}
