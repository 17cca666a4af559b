//! Whether words fit ports.
ghost use Rattle.std.specs.Prelude.{◌≡◌};
ghost use Rattle.scc_trace.specs.Text.{all_fit};

use crate::stim::StimPort;
use crate::value::fits;
use scc_bits::Word;

/// Whether there is a word for each port, and none that needs more bits than its port has.
pub fn fitting(ports: &[StimPort], words: &[Word]) -> bool
    ensures { result ≡ all_fit ports.now words.now }
{
    let mut rest = words;
    for port in ports {
        let [word, more @ ..] = rest else {
            return false;
        };
        if !fits(port.width as usize, word.bits) {
            return false;
        }
        rest = more;
    }
    rest.is_empty()
}
