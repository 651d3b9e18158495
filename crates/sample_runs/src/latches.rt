//! Holds of a table of words, one beside another: a free word is claimed, and one that is held is told with its holder.

ghost use Rattle.std.specs.Prelude.{◌≡◌, ℕ, [], ◌∷◌, Some, None, IfOk};
ghost use Rattle.latch_table.specs.Views.{story, no_marks, first_view};

use latch_table::{Chronicle, Held, Hold, Latches};
use std::alloc::{AllocError, Global};
use std::test::Fail;

/// Pairs of a page and its new value. They speak for no number.
#[derive(Drop)]
struct Pairs {
    pairs: Vec<(u16, u64)>,
}

impl Chronicle<u64> for Pairs {
    ghost use Rattle.std.specs.Prelude.{ℕ, List, [], ◌∷◌, ◌==◌, if◌then◌else◌, fold, false, None, refl};

    type Entry = (u16, u64);

    type Fixed = ();

    ghost account = { record { entries = λ c. c.pairs.items; fixed = λ _. tt; marks = λ _. no_marks; sizes = λ _. (0, 0); frame = λ _ es p. fold (λ old e. if e.0 == p then e.1 else old) 0 es; speaks = λ _. None; truth = λ _ _. false } };

    ghost goes_on = { λ _ _. Unit {0} };

    fn len(&self) -> u64 {
        self.pairs.len() as u64
    }

    ghost begins_false = { λ _. refl };

    ghost keeps_others = { λ _ _ _ _. refl };
}

/// Three frames that hold 0, and no pair.
fn opened(alloc: Global) -> Result<(Latches<Pairs, u64>, Hold<Pairs, u64>), AllocError>
    ensures { IfOk result (λ r. (r.0.pages ≡ 3) × (r.1.table ≡ r.0.table) × (r.1.view ≡ first_view tt)) }
{
    let frames = Vec::from_elem(alloc, 0u64, 3)?;
    let pairs = Pairs {
        pairs: Vec::new(alloc),
    };
    match Latches::new(alloc, pairs, frames) {
        Ok(both) => Ok(both),
        Err(_) => Err(AllocError),
    }
}

/// Appends a pair to the chronicle that the hold has, with the page in hand, and gives the chronicle back.
fn add(
    latches: &Latches<Pairs, u64>,
    hold: &mut Hold<Pairs, u64>,
    mut pairs: Pairs,
    page: u16,
    value: u64,
) -> Result<(), AllocError>
    requires of { (hold.old.table ≡ latches.now.table) × (hold.old.view.knowledge.fixed ≡ Some tt) }
    requires log { hold.old.view.hands.log ≡ Some (story pairs.pairs.items no_marks (0, 0)) }
    requires page { (old : ℕ) × (hold.old.view.hands.pages ≡ (page, old) ∷ []) }
    ensures of { IfOk result (λ _. (hold.new.table ≡ latches.now.table) × (hold.new.view.hands.log ≡ None) × (hold.new.view.station ≡ hold.old.view.station)) }
    ensures written { IfOk result (λ _. hold.new.view.hands.pages ≡ (page, value) ∷ []) }
{
    pairs.pairs.push((page, value))?;
    latches.append(hold, &pairs);
    latches.drop_log(hold, pairs);
    Ok(())
}

#[test]
fn words_name_their_holders(rt: HostRuntime) -> Result<(), Fail> {
    let (latches, mut main) = opened(rt.alloc())?;
    let mut b = latches.split(&mut main, 1);
    let (main_number, b_number) = (main.number(), b.number());
    assert_eq!(rt; (main_number, b_number, main.made()), (1, 2, 2));
    assert_eq!(rt; latches.claim_page(&mut main, 0), Ok(0));
    assert_eq!(rt;
        latches.claim_page(&mut b, 0),
        Err(Held {
            word: 0,
            seat: main_number
        })
    );
    let Ok(pairs) = latches.claim_log(&mut b) else {
        panic!(rt; "the log was free")
    };
    let Err(held) = latches.claim_log(&mut main) else {
        panic!(rt; "the log was b's")
    };
    assert_eq!(rt;
        held,
        Held {
            word: 3,
            seat: b_number
        }
    );
    assert_eq!(rt; latches.claim_page(&mut b, 1), Ok(0));
    add(&latches, &mut b, pairs, 1, 7)?;
    latches.drop_page(&mut b, 1, 7);
    assert_eq!(rt; latches.load(&mut main), 1);
    assert_eq!(rt; latches.claim_page(&mut main, 1), Ok(7));
    latches.drop_page(&mut main, 1, 7);
    latches.drop_page(&mut main, 0, 0);
    latches.join(&mut main, b);
    let (pairs, frames) = latches.close(main);
    assert_eq!(rt; pairs.pairs.as_slice(), [(1, 7)].as_slice());
    assert_eq!(rt; frames.as_slice(), [0, 7, 0].as_slice());
    Ok(())
}
