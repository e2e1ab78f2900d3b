// Text: the UTF-8 check. Rules: Utf8.antt of crate `text_scalars`, specs/CheckMeans.antt.
#![tactic(auto)]

mod utf8;

pub use utf8::check_utf8;
