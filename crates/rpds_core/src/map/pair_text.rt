//! `Display` of a map, from an iterator over its pairs.
ghost use Rattle.std.specs.Prelude.{◌≡◌, List};
ghost use Rattle.std.specs.Fmt.{formatter_spec, DisplaysOnOk, DisplaysStyledOnOk};
ghost use Rattle.std.specs.Iterator.{IsFinite};
ghost use Rattle.std.specs.Map.Iter.{deref_pair};
ghost use Rattle.rpds_core.specs.MapText.{map_text, pair_text};
ghost use Rattle.rpds_core.specs.Sequence.{ShowsList};

use crate::sequence::write_between;
use std::fmt;
use std::fmt::{Display, Formatter};

// A key and its value, printed as `key: value`.
#[derive(Drop)]
struct PairText<'a, K, V> {
    key: &'a K,
    value: &'a V,
}

// Both with the options of the whole.
impl<K: Display, V: Display> Display for PairText<'_, K, V> {
    ghost output = { λ p. pair_text K.output V.output (p.key.now, p.value.now) };

    ghost styled_output = { λ p spec. pair_text (λ key. K.styled_output key spec) (λ value. V.styled_output value spec) (p.key.now, p.value.now) };

    fn fmt<W: fmt::Write>(&self, f: &mut Formatter<W>) -> fmt::Result {
        self.key.fmt(f)?;
        f.write_str(": ")?;
        self.value.fmt(f)
    }
}

impl<'a, K, V> PairText<'a, K, V> {
    // That of a pair of references.
    fn of(pair: (&'a K, &'a V)) -> PairText<'a, K, V>
        ensures { pair.entry ≡ (result.key, result.value) }
    {
        let (key, value) = pair;
        PairText { key, value }
    }
}

/// Writes the pairs of a map as `{1: 2, 3: 4}`, each key and value with the options of the formatter. One step a pair;
/// an error is that of the writer, a key or a value.
pub fn write_pairs<
    'a,
    K: Display + 'a,
    V: Display + 'a,
    I: Iterator<Item = (&'a K, &'a V)> + Drop,
    W: fmt::Write,
>(pairs: I, f: &mut Formatter<W>) -> fmt::Result
    requires can { I.can_next pairs }
    requires ends { IsFinite (I.remaining pairs) }
    ensures writes { (rest : I → List (K × V)) → ShowsList I.next_gives deref_pair rest
        → DisplaysOnOk W.write_str_gives f.old result
        (map_text K.output V.output (rest pairs)) f.new }
    ensures styled { (rest : I → List (K × V)) → ShowsList I.next_gives deref_pair rest
        → DisplaysStyledOnOk W.write_str_gives f.old result
        (map_text (λ key. K.styled_output key (formatter_spec f.old))
        (λ value. V.styled_output value (formatter_spec f.old)) (rest pairs)) f.new }
{
    write_between::<(K, V), PairText<'a, K, V>, _, W>("{", pairs.map(PairText::of), "}", f)
}
