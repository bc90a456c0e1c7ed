ghost use Rattle.std.specs.Prelude.{◌≡◌, []};
ghost use Rattle.book_machine.specs.Machine.{opened};

use super::*;
use book_machine::{Call, Caller, Note, Reply};
use std::alloc::Global;
use std::marker::Brand;
use std::process::Abort;
use std::sync::{Mutex, Wait};
use std::test::*;
use std::thread::{Threads, join};

#[test]
fn what_happens_is_added(rt: HostRuntime) {
    added::<Brand, _>(&rt, Unnamed::new());
}

#[test]
fn two_threads_add_to_one_history(rt: HostRuntime) {
    added_by_two::<Brand, _>(&rt, Unnamed::new());
}

fn added<J: Naming, R: Abort>(rt: &R, unnamed: Unnamed)
    requires name { unnamed ≡ J.book }
    requires opening { J.opening ≡ opened [] }
{
    let mut whole = unnamed.named::<J>();
    let mut front = whole.front();
    assert!(rt; front.count() == 0);
    let given_up: Note<Global> = Note {
        caller: Caller::Worker(0),
        call: Call::GiveUp { ticket: 1 },
        reply: Reply::UnknownTicket,
    };
    whole.call(&given_up);
    whole.open(Caller::Session(0));
    whole.stop();
    assert!(rt; front.begins(&whole));
    front.follow(&whole);
    assert!(rt; front.is_kept() && front.count() == 3 && front.again().begins(&whole));
}

fn added_by_two<J: Naming + Send + Sync, R: Threads + Wait + Abort + Sync>(rt: &R, unnamed: Unnamed)
    requires { unnamed ≡ J.book }
{
    let shared = Mutex::new(unnamed.named::<J>());
    let (one, two) = join(
        rt,
        || -> Front<J> { opened_in(rt, &shared, Caller::Session(0)) },
        || -> Front<J> { opened_in(rt, &shared, Caller::Worker(0)) },
    );
    let whole = shared.into_inner();
    assert!(rt; one.begins(&whole) && two.begins(&whole));
    assert!(rt; one.count() != two.count() && whole.is_kept() && whole.front().count() == 2);
}

fn opened_in<J: Naming, R: Wait>(rt: &R, shared: &Mutex<Whole<J>>, who: Caller) -> Front<J> {
    let mut whole = shared.lock(rt);
    whole.open(who);
    whole.front()
}
