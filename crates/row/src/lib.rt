// The 128-byte row in which a board keeps an account.
#![tactic(auto)]

mod decoding;
mod encoding;
mod laws;
mod writer;

pub use decoding::decode;
pub use encoding::encode;
pub use laws::rows_stand_for_accounts;
