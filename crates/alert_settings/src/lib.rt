// Settings of an alert as they are lent (document 02, job 2): one list of numbers k, c, k, c. They are split into two slices, so that a
// loop over the settings meets all k side by side, and all c.
#![tactic(auto)]

ghost use Rattle.std.specs.Prelude.{◌≡◌};
ghost use Rattle.alert_settings.specs.Settings.{run_within, runs_within, settings_within};
ghost use Rattle.alert_settings.specs.Clauses.{SplitAsked, Split};

use limits::{RUN_MOST, SETTINGS};

// Whether k or c is from 1 to 99.
pub fn run_within(number: u32) -> bool
    ensures { result ≡ run_within number }
{
    (1..=RUN_MOST).contains(&number)
}

// Whether each of the numbers is so.
fn runs_within(settings: &[u32]) -> bool
    ensures { result ≡ runs_within settings.now }
{
    settings.iter().all(|number| run_within(*number))
}

// Whether the numbers are 1 to 20 settings, each of a k and a c within their limits.
pub fn settings_within(settings: &[u32]) -> bool
    ensures { result ≡ settings_within settings.now }
{
    settings.len() % 2 == 0 && (1..=2 * SETTINGS).contains(&settings.len()) && runs_within(settings)
}

// Puts k and c of each setting into its place of the two slices.
pub fn split(settings: &[u32], ks: &mut [u32], cs: &mut [u32])
    requires { SplitAsked settings.now ks.old cs.old }
    ensures { Split settings.now ks.new cs.new }
{
    for j in 0..settings.len() / 2 {
        ks[j] = settings[2 * j];
        cs[j] = settings[2 * j + 1];
    }
}
