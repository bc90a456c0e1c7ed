/// What may answer a request.
pub trait Response<Q> {
    /// Whether it answers this request.
    ghost answers: { Q → Self → Type 0 };
}
