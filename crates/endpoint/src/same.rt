//! The comparisons in the rules.

ghost use Rattle.spec_tcp.specs.Same.{same_bool, same_word, same_endpoint};
ghost use Rattle.std.specs.Prelude.{◌≡◌};

use seqno::Word;
use spec_tcp::EndpointId;

pub(crate) fn same_bool(a: bool, b: bool) -> bool
    ensures { result ≡ same_bool a b }
{
    a == b
}

pub(crate) fn same_endpoint(a: EndpointId, b: EndpointId) -> bool
    ensures { result ≡ same_endpoint a b }
{
    a.host == b.host && a.number == b.number
}

pub(crate) fn same_word(a: Word, b: Word) -> bool
    ensures { result ≡ same_word a b }
{
    a.0 == b.0
}
