// The tests of verdicts 1, 4, 5 and 6, each by what it looks at.
#![tactic(auto)]

ghost use Rattle.std.specs.Prelude.{◌≡◌, not, List};
ghost use Rattle.writes.specs.Elements.{Element};
ghost use Rattle.verdicts.specs.Verdicts.{one_of_five, length_ok, flag_on, illegal, some_active, stack};

use encoding::Feature;
use verdicts::Flags;

// Whether VB is one of the five.
pub fn one_of_five(vb: usize) -> bool
    ensures { result ≡ one_of_five vb }
{
    (vb == 16) | (vb == 32) | (vb == 64) | (vb == 128) | (vb == 256)
}

// Whether VB is a length of the machine's edition, in its mode. The five are lengths in each.
pub fn length_ok(vb: usize, early: bool, streaming: bool) -> bool
    ensures { result ≡ length_ok early streaming vb }
{
    if one_of_five(vb) {
        return true;
    }
    early & !streaming & (vb % 16 == 0) & (16 <= vb) & (vb <= 256)
}

// Whether a feature is off.
pub fn is_off(flags: Flags, feature: Feature) -> bool
    ensures { result ≡ not (flag_on flags feature) }
{
    match feature {
        Feature::SVE => !flags.sve,
        Feature::SME2 => !flags.sme2,
        Feature::SVE2p1 => !flags.sve2p1,
    }
}

// Whether a store of a class with this feature is illegal.
pub fn is_illegal(flags: Flags, feature: Feature) -> bool
    ensures { result ≡ illegal flags feature }
{
    match feature {
        Feature::SVE => flags.streaming & !flags.fa64,
        Feature::SME2 => !flags.streaming,
        Feature::SVE2p1 => flags.streaming & !flags.fa64,
    }
}

// Whether the stack check refuses a store, by whether its base is SP and it has active elements.
pub fn is_stack(flags: Flags, sp: u64, on_stack: bool, some: bool) -> bool
    ensures { (es : List Element) → some ≡ some_active es → result ≡ stack flags sp on_stack es }
{
    on_stack & flags.sp_check & (sp % 16 != 0) & (some | flags.sp_check_none_active)
}
