ghost use Rattle.std.specs.Prelude.{◌≡◌, Some, IfOk, IfSome};

use crate::parcel::{Answering, Parcel};
use crate::response::Response;
use rtrb::{Consumer, Producer, RingBuffer};
use std::alloc::{AllocError, Allocator};
use std::marker::Model;

/// The end that sends a response to its request.
#[derive(Drop)]
pub struct Sender<Q, R: Response<Q>, A: Allocator + Copy> {
    producer: Producer<Parcel<Q, R>, A, Answering>,
}

impl<Q, R: Response<Q>, A: Allocator + Copy> Model for Sender<Q, R, A> {
    ghost use Rattle.std.specs.Prelude.{Option};
    ghost use Rattle.rtrb.specs.Ring.{sent};
    ghost use Rattle.handover.specs.Parcels.{request_of};

    ghost Value = { Option Q };

    ghost view = { λ s. request_of (sent s.producer) };
}

/// The end that receives the response to its request.
#[derive(Drop)]
pub struct Receiver<Q, R: Response<Q>, A: Allocator + Copy> {
    request: Q,
    // None once the response was received.
    consumer: Option<Consumer<Parcel<Q, R>, A, Answering>>,
}

impl<Q, R: Response<Q>, A: Allocator + Copy> Model for Receiver<Q, R, A> {
    ghost use Rattle.std.specs.Prelude.{◌≡◌, IfSome, Some};
    ghost use Rattle.rtrb.specs.Ring.{received};
    ghost use Rattle.handover.specs.Parcels.{request_of};

    ghost Value = { Q };

    ghost view = { λ r. r.request };

    ghost invariant = { λ r. IfSome r.consumer (λ c. request_of (received c) ≡ Some r.request) };
}

/// Both ends for one request. AllocError where a growth was refused.
pub fn open<Q: Drop, R: Response<Q> + Drop, A: Allocator + Copy>(
    alloc: A,
    request: Q,
) -> Result<(Sender<Q, R, A>, Receiver<Q, R, A>), AllocError>
    ensures sender { IfOk result (λ ends. ends.0 ≡ Some request) }
    ensures receiver { IfOk result (λ ends. ends.1 ≡ request) }
{
    let (mut producer, mut consumer) = RingBuffer::with_protocol::<A, Answering>(alloc, 1)?;
    producer.push_reserved(Parcel::Request(request));
    consumer.slots_beside(&mut producer);
    let Parcel::Request(request) = consumer.pop_known() else {
        unreachable!()
    };
    let consumer = Some(consumer);
    Ok((Sender { producer }, Receiver { request, consumer }))
}

impl<Q: Drop, R: Response<Q> + Drop, A: Allocator + Copy> Sender<Q, R, A> {
    /// Sends a response. Where one was sent that is not received yet, this one is dropped.
    pub fn send(&mut self, response: R)
        requires { IfSome self.old (λ q. R.answers q response) }
        ensures { self.new ≡ self.old }
    {
        let _ = self.producer.push(Parcel::Response(response));
    }
}

impl<Q: Drop, R: Response<Q> + Drop, A: Allocator + Copy> Receiver<Q, R, A> {
    /// The request.
    pub fn request(&self) -> &Q
        ensures { result.now ≡ self.now }
    {
        &self.request
    }

    /// The response, once it was sent, and once only. No clause says that it has come.
    pub fn receive(&mut self) -> Option<R>
        ensures response { IfSome result (R.answers self.old) }
        ensures request { self.new ≡ self.old }
    {
        let Ok(Parcel::Response(response)) = self.consumer.as_mut()?.pop() else {
            return None;
        };
        self.consumer = None;
        Some(response)
    }
}
