//! What lines of a script queue and answer, from a store on: definitions, and a law as the contract of a function that
//! does nothing.
#![tactic(auto)]

ghost use Rattle.std.specs.Prelude.{◌≡◌, ◌+◌, ◌≤◌, ◌++◌, ℕ, List, length, Contains};
ghost use Rattle.fs_script.specs.declared.answer.Answer.TheVariants.{Drained};
ghost use Rattle.fs_script.specs.declared.statement.Line.{Line};
ghost use Rattle.fs_session.specs.Answers.{Session, IsCounted, answers, session_after, queued_by, answers_text};

/// Lines that stand behind others go on where those end. The last number counts what was queued, and what an answer
/// acknowledges stays acknowledged.
pub fn answers_law()
    ensures after_more { (s : Session) (xs ys : List Line) → session_after s (xs ++ ys) ≡ session_after (session_after s xs) ys }
    ensures queued_more { (s : Session) (xs ys : List Line) →
        queued_by s (xs ++ ys) ≡ queued_by s xs ++ queued_by (session_after s xs) ys }
    ensures answers_more { (s : Session) (xs ys : List Line) →
        answers s (xs ++ ys) ≡ answers s xs ++ answers (session_after s xs) ys }
    ensures text_more { (s : Session) (xs ys : List Line) →
        answers_text s (xs ++ ys) ≡ answers_text s xs ++ answers_text (session_after s xs) ys }
    ensures numbers { (s : Session) (lines : List Line) →
        (session_after s lines).last ≡ s.last + length (queued_by s lines) }
    ensures counted { (s : Session) (lines : List Line) → IsCounted s → IsCounted (session_after s lines) }
    ensures acked { (s : Session) (xs : List Line) (n seq : ℕ) → IsCounted s → Contains (answers s xs) (Drained n seq)
        → n ≤ (session_after s xs).acked }
{}
