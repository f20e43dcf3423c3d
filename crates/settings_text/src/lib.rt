#![tactic(auto)]
// A settings text (document 02, job 2): 1 to 20 lines `k,c`, each ended by byte 10. A text is read line by line and no further than the
// first line that is not one, or the 21st, so that a text in form is short and no test of its length is needed.
ghost use Rattle.std.specs.Prelude.{◌≡◌, ◌*◌, ◌≤◌, length};
ghost use Rattle.limits.specs.Limits.{setting_limit};
ghost use Rattle.settings_text.specs.SettingsText.{setting_stated};
ghost use Rattle.settings_text.specs.Clauses.{setting_read, SettingsRead};

use limits::{RUN_MOST, SETTINGS};
use number::plain_count;
use text::parts::{field_end, line_end};

// What a line states.
#[derive(Clone, Copy)]
pub struct SettingLine {
    pub k: u32,
    pub c: u32,
}

fn read_setting(line: &[u8]) -> Option<SettingLine>
    ensures { result ≡ setting_read (setting_stated line.now) }
{
    let end = field_end(line, 0);
    if end == line.len() {
        return None;
    }
    let next = end + 1;
    let last = field_end(line, next);
    if last != line.len() {
        return None;
    }
    let k = plain_count(&line[..end], RUN_MOST)?;
    let c = plain_count(&line[next..last], RUN_MOST)?;
    Some(SettingLine { k, c })
}

// Reads a settings text into the first places of the lent slice, and answers how many numbers k, c, k, c stand there.
pub fn read_settings(text: &[u8], settings: &mut [u32]) -> Option<usize>
    requires { 2 * setting_limit ≤ length settings.old }
    ensures { SettingsRead text.now settings.old settings.new result }
{
    if text.is_empty() {
        return None;
    }
    let mut lines = 0;
    let mut at = 0;
    // The step is a line.
    while at < text.len() {
        if SETTINGS <= lines {
            return None;
        }
        let end = line_end(text, at);
        if end == text.len() {
            return None;
        }
        let setting = read_setting(&text[at..end])?;
        settings[2 * lines] = setting.k;
        settings[2 * lines + 1] = setting.c;
        lines += 1;
        at = end + 1;
    }
    Some(2 * lines)
}
