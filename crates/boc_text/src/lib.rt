//! Numbers as text, lines, and input and output whose failures are counted.
//!
//! A `Source` gives bytes and a `Sink` takes them. Their contracts know the bytes, where the type says them,
//! and how many calls have failed. `Counted` makes them of the library's readers and writers,
//! `Bytes` of memory, and `FailAt` fails once, for tests. `Outgoing` is a text that goes out in parts while it is formed.
#![tactic(auto)]

pub mod bytes;
pub mod counted;
pub mod decimal;
pub mod fail_at;
pub mod fault;
pub mod lines;
pub mod outgoing;
pub mod stream;
pub mod whole;

pub use bytes::Bytes;
pub use counted::Counted;
pub use decimal::{MOST_DIGITS, put_number, put_signed, read_number, write_before};
pub use fail_at::FailAt;
pub use fault::WriteFault;
pub use lines::{Found, Lines, MOST_LINE, Next};
pub use outgoing::{Outgoing, ROOM};
pub use stream::{Failed, Sink, Source};
pub use whole::{Stopped, TextFault, put_out, read_all};
