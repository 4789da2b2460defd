/// How a program ends; the exit statuses are the numbers 0 to 7 in this order.
#[derive(Clone, Copy, Debug, PartialEq, Eq)]
pub enum Status {
    Accepted = 0,
    Rejected = 1,
    Undecided = 2,
    Refused = 3,
    ReadFault = 4,
    WriteFault = 5,
    NoMemory = 6,
    Usage = 7,
}
