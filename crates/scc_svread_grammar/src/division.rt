//! Which operators divide.
ghost use Rattle.std.specs.Prelude.{◌≡◌};
ghost use Rattle.scc_svread_grammar.specs.Grammar as grammar;

use scc_svtree::SvBinary;

/// Whether a literal stands behind the operator, or `$signed` of one (IEEE 1800-2017, 11.4.3: a divisor is not zero).
pub fn is_division(op: SvBinary) -> bool
    ensures { result ≡ grammar.is_division op }
{
    matches!(op, SvBinary::Div | SvBinary::Rem)
}
