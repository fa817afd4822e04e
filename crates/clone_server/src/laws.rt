//! Worked command lines.
ghost use Rattle.std.specs.Prelude.{◌≡◌, [], ◌∷◌, codes};
ghost use Rattle.clone_script.specs.Script.{HasOutcome, Outcome, done};
ghost use Rattle.clone_server.specs.Examples.{Makes, Says, SaysNothing};
ghost use Rattle.clone_server.specs.Made.{made_script};

use clone_script::laws::one_outcome;

/// The script that stands for the given one where a package is made from a number has whole commands alone, so it is done.
pub fn made_scripts_are_done()
    ensures { (o : Outcome) → HasOutcome made_script o → o ≡ done }
{
    one_outcome();
}

/// Options are taken before and behind the folder, and with `=`; what is left out stands for 2 and 8.
pub fn taken()
    ensures alone { Says (codes "d" ∷ []) 2 8 (codes "d") }
    ensures both { Says (codes "--min" ∷ codes "32" ∷ codes "--mass" ∷ codes "1000" ∷ codes "d" ∷ []) 32 1000 (codes "d") }
    ensures behind { Says (codes "d" ∷ codes "--mass=11" ∷ []) 2 11 (codes "d") }
    ensures dashes { Says (codes "--" ∷ codes "-d" ∷ []) 2 8 (codes "-d") }
    ensures make { Makes (codes "--make" ∷ codes "0" ∷ codes "d" ∷ []) 0 (codes "d") }
    ensures make_most { Makes (codes "d" ∷ codes "--make=4294967295" ∷ []) 4294967295 (codes "d") }
{}

/// Numbers outside their ranges, signs, leading zeros, repeated options, other words, and no folder or two are not taken;
/// nor are `--help` and `--version`.
pub fn not_taken()
    ensures none { SaysNothing [] }
    ensures zero { SaysNothing (codes "--min" ∷ codes "0" ∷ codes "d" ∷ []) }
    ensures past { SaysNothing (codes "--min" ∷ codes "33" ∷ codes "d" ∷ []) }
    ensures past_mass { SaysNothing (codes "--mass" ∷ codes "1001" ∷ codes "d" ∷ []) }
    ensures sign { SaysNothing (codes "--min=+3" ∷ codes "d" ∷ []) }
    ensures leading { SaysNothing (codes "--min=03" ∷ codes "d" ∷ []) }
    ensures empty { SaysNothing (codes "--min=" ∷ codes "d" ∷ []) }
    ensures repeated { SaysNothing (codes "--min=3" ∷ codes "--min=3" ∷ codes "d" ∷ []) }
    ensures two { SaysNothing (codes "d" ∷ codes "e" ∷ []) }
    ensures make_past { SaysNothing (codes "--make" ∷ codes "4294967296" ∷ codes "d" ∷ []) }
    ensures make_alone { SaysNothing (codes "--make" ∷ codes "7" ∷ []) }
    ensures make_leading { SaysNothing (codes "--make" ∷ codes "07" ∷ codes "d" ∷ []) }
    ensures other { SaysNothing (codes "--max=3" ∷ codes "d" ∷ []) }
    ensures help { SaysNothing (codes "--help" ∷ []) }
    ensures version { SaysNothing (codes "--version" ∷ codes "d" ∷ []) }
{}
