// Two ranges of indexes.
ghost use Rattle.std.specs.Prelude.{◌≡◌};
ghost use Rattle.rules.specs.Update.{meet};
ghost use Rattle.format_buffer.specs.Elements.{range};

// Whether two ranges have an index in common.
#[tactic(auto, unfolding(rules::specs::Update::meet))]
pub fn meet(from: usize, upto: usize, low: usize, high: usize) -> bool
    ensures { result ≡ meet (range from upto) (range low high) }
{
    from <= high && low <= upto
}
