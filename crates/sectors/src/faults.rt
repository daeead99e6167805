// What a judgement finds.
ghost use Rattle.std.specs.Prelude.{◌≡◌};
ghost use Rattle.sector_rules.specs.Faults.{wrong_at};

// The fault of a field at offset o that is right or wrong (§7.18).
pub fn wrong_at(o: usize, right: bool) -> Option<usize>
    ensures { result ≡ wrong_at o right }
{
    (!right).then_some(o)
}
