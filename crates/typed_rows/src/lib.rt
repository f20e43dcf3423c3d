// Rows of channels whose types are given by their codes: what a call is lent of them is within its limits.
#![tactic(auto)]

ghost use Rattle.std.specs.Prelude.{◌≡◌};
ghost use Rattle.limits.specs.Limits.{row_limit};
ghost use Rattle.channel.specs.Channel.{channel_types};
ghost use Rattle.typed_rows.specs.Given.{given_within};

use channel::{Code, codes_known};
use figures::table::rows_within;

// Whether the first m rows of n channels and the first n codes are within their limits.
pub fn given_within(rows: &[i32], m: usize, n: usize, codes: &[Code]) -> bool
    ensures { result ≡ given_within row_limit channel_types rows.now m n codes.now }
{
    rows_within(rows, m, n) && n <= codes.len() && codes_known(codes, n)
}
