// What goes from one end to the other: first the request, which is received at once, and then a response,
// which answers it.
ghost use Rattle.handover.specs.Parcels.{MayFollow};

use crate::response::Response;
use rtrb::Protocol;

#[derive(Drop)]
pub(crate) enum Parcel<Q, R> {
    Request(Q),
    Response(R),
}

pub(crate) struct Answering;

impl<Q, R: Response<Q>> Protocol<Parcel<Q, R>> for Answering {
    ghost allows = { MayFollow R.answers };
}
