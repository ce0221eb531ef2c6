use sg_modes::Session;
use sg_plain::Transaction;
use sg_shape::Items;

/// A session of a script.
#[derive(Debug, Drop)]
pub struct SessionScript {
    /// Its number.
    pub session: Session,
    /// From -10 to 10, where the lowest is the first to be given up.
    pub priority: i8,
    /// Its transactions, in order.
    pub transactions: Items<Transaction>,
}
