use crate::call::Call;
use crate::caller::Caller;
use crate::reply::Reply;
use std::alloc::Allocator;

/// One line of the journal: who called, what, and what was replied.
#[derive(Drop)]
pub struct Note<A: Allocator + Copy> {
    pub caller: Caller,
    pub call: Call<A>,
    pub reply: Reply,
}
