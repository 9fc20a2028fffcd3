//! The two definitions of a dialogue's end say the same.
ghost use Rattle.std.specs.Prelude.{◌≡◌, length, List, ℕ};
ghost use Rattle.q_model.specs.declared.outcome.Outcome.{Outcome};
ghost use Rattle.q_smtp.specs.Dialogue.{Broken, dialogue, Open, Settled, Transaction};
ghost use Rattle.q_smtp.specs.WholeDialogues.{CanGoOn, Says};

/// The dialogue, which hears one code after another, ends as the whole lists of codes say: it is
/// settled exactly where the codes begin with a whole list, open where they can still go on to
/// one, and broken where they can't.
pub fn whole_lists()
    ensures settled { (t : Transaction) (codes : List ℕ) (said : List Outcome)
        → (dialogue t codes).ending ≡ Settled said → Says (length t.to) codes said }
    ensures says { (t : Transaction) (codes : List ℕ) (said : List Outcome)
        → Says (length t.to) codes said → (dialogue t codes).ending ≡ Settled said }
    ensures open { (t : Transaction) (codes : List ℕ)
        → (dialogue t codes).ending ≡ Open → CanGoOn (length t.to) codes }
    ensures broken { (t : Transaction) (codes : List ℕ)
        → (dialogue t codes).ending ≡ Broken → CanGoOn (length t.to) codes → ⊥ }
{}
