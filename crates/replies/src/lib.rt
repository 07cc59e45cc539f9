// The replies to requests; the crate `printing` prints them. Each crate of kinds of requests stands on
// this one and on `protocol`.
#![tactic(auto)]

pub mod forms; // forms.rt: the replies

pub use forms::{Columns, Reply, Report, Search, SpanRows};
