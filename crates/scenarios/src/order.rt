ghost use Rattle.std.specs.Prelude.{◌≡◌};
ghost use Rattle.scenarios.specs.Order.{HasEachOrder, all_orders, order_of, order_word};

/// Who goes first among the later waiting jobs that may start in the place of the head.
///
/// The head of the queue is always the first by arrival, in either order.
#[derive(Clone, Copy, Debug, PartialEq, Eq)]
pub enum Order {
    /// Whoever arrived first.
    Arrival,
    /// Whoever has the shortest estimate; of those, whoever arrived first.
    Shortest,
}

impl Order {
    /// All orders, each once.
    pub fn all() -> &'static [Order]
        ensures value { result.now ≡ all_orders }
        ensures each { HasEachOrder result.now }
    {
        &[Order::Arrival, Order::Shortest]
    }

    /// The order that this word names, `arrival` or `shortest`; None for every other word.
    pub fn of_word(word: &[u8]) -> Option<Order>
        ensures { result ≡ order_of word.now }
    {
        if word == b"arrival".as_slice() {
            return Some(Order::Arrival);
        }
        if word == b"shortest".as_slice() {
            return Some(Order::Shortest);
        }
        None
    }

    /// The word that names it.
    pub fn word(self) -> &'static [u8]
        ensures { result.now ≡ order_word self }
    {
        match self {
            Order::Arrival => b"arrival",
            Order::Shortest => b"shortest",
        }
    }
}
