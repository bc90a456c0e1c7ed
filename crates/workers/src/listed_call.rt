ghost use Rattle.std.specs.Prelude.{◌≡◌, ◌<◌, ◌≤◌, ◌++◌, map, OnErr, OnOk, vec_len, vec_capacity};
ghost use Rattle.book_machine.specs.Noted.{call_of};
ghost use Rattle.workers.specs.Lists.{listed_of, gained};

use book_machine::{Call, Reply};
use std::alloc::Allocator;
use swf_text::Memory;

/// A call and its reply, as they stand in the caller's own list.
#[derive(Drop)]
pub struct ListedCall<A: Allocator + Copy> {
    pub call: Call<A>,
    pub reply: Reply,
}

pub(crate) fn reserve_call<A: Allocator + Copy>(
    list: &mut Vec<ListedCall<A>, A>,
) -> Result<(), Memory>
    ensures items { list.new.items ≡ list.old.items }
    ensures capacity { OnOk result (vec_len list.new < vec_capacity list.new) }
    ensures none { OnErr result (vec_capacity list.new ≤ vec_len list.new) }
{
    Ok(list.reserve(1)?)
}

pub(crate) fn keep<A: Allocator + Copy>(
    list: &mut Vec<ListedCall<A>, A>,
    call: Call<A>,
    reply: Option<Reply>,
)
    requires capacity { vec_len list.old < vec_capacity list.old }
    ensures { map listed_of list.new.items ≡ map listed_of list.old.items ++ gained (call_of call) reply }
{
    if let Some(reply) = reply {
        list.push_reserved(ListedCall { call, reply });
    }
}
