// The settings line: the seven settings, in the order of document 01's table.
ghost use Rattle.std.specs.Prelude.{◌≡◌};
ghost use Rattle.rows.specs.SettingsLine.{settings_line_refusal, settings_line_answer, settings_line_numbers};

use crate::refusal::{Refusal, refuse, refuse_shape};
use crate::widths::SETTINGS_WIDTHS;
use faults::reader::read_line;
use phase::Settings;

// Reads the settings line that these bytes are.
pub fn read_settings_line(line: &[u8]) -> Result<Settings, Refusal>
    ensures answer { result ≡ settings_line_answer line.now }
    ensures numbers { settings_line_numbers result ≡ settings_line_refusal line.now }
{
    let fields = SETTINGS_WIDTHS.len();
    let n = read_line(line, &SETTINGS_WIDTHS).map_err(|fault| refuse_shape(line, fault, fields))?;
    let settings = Settings {
        operation: n[0] as u32,
        start_current: n[1] as u32,
        time_multiplier: n[2] as u32,
        minimum_delay: n[3] as u32,
        definite_delay: n[4] as u32,
        reset_time: n[5] as u32,
        start_only: n[6] as u32,
    };
    let refusal = settings.check();
    if refusal != 0 {
        return Err(refuse(refusal));
    }
    Ok(settings)
}
