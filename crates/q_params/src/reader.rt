//! The parameter file.
ghost use Rattle.std.specs.Prelude.{◌≡◌, IfOk};
ghost use Rattle.q_params.specs.ParameterFile.{settings_of_file, read_lines};
ghost use Rattle.q_settings.specs.Ranges.{IsInRange};

use crate::draft::Draft;
use crate::error::{ParamCause, ParamError};
use q_settings::Params;
use q_text::first_line;

fn read_lines(bytes: &[u8]) -> Result<Draft, ParamError>
    ensures { result ≡ read_lines bytes.now }
{
    let mut draft = Draft::new();
    let mut number = 0;
    let mut rest = bytes;
    while !rest.is_empty() {
        let (line, others) = first_line(rest);
        number += 1;
        if let Err(cause) = draft.read_line(number, line) {
            return Err(ParamError {
                line: number,
                cause,
            });
        }
        rest = others;
    }
    Ok(draft)
}

/// The parameters that a file sets, and the defaults of the others. A file has lines
/// `name = value`; blanks (spaces and tabs) may stand round the name and the value. Lines that are
/// blank or begin with `#` are passed over (postconf(5), without continuation lines).
///
/// An error names the first line at fault with its first cause. Where no single line is at fault,
/// but `qmgr_message_recipient_minimum` is above `qmgr_message_recipient_limit`, or
/// `minimal_backoff_time` above `maximal_backoff_time`, it is a bad value at the later line of the
/// two; a default counts as line 0. Where both pairs are at fault the smaller line is named.
pub fn read_params(bytes: &[u8]) -> Result<Params, ParamError>
    ensures exact { result ≡ settings_of_file bytes.now }
    ensures in_range { IfOk result IsInRange }
{
    read_lines(bytes)?.finish()
}
