// Any calls, one by one or a whole run of them.
ghost use Rattle.std.specs.Prelude.{◌≡◌, min, ◌++◌, length, take, drop};
ghost use Rattle.plain.specs.EachCall.{OneCall};
ghost use Rattle.plain.specs.EveryRun.{HoldsThroughout};
ghost use Rattle.plain.specs.Runs.{after, answer, answered, run};
ghost use Rattle.book.specs.Calls.{step_of, steps_of};
ghost use Rattle.book.specs.View.{plain};

use crate::book::Book;
use crate::calls::Call;
use plain::answers::Answer;
use rules::rule::Rule;
use sources::source::Source;

impl<'r, R: Rule> Book<'r, R> {
    /// One call, whichever it is. Its answer is what the call of that name gives, or its refusal.
    pub fn apply<S: Source>(&mut self, call: &Call<S>) -> Answer
        ensures book { plain self.new ≡ after (R.tables self.old.rule.now) (plain self.old) (step_of S.meaning call.now) }
        ensures rule { self.new.rule ≡ self.old.rule }
        ensures told { result ≡ answer (R.tables self.old.rule.now) (plain self.old) (step_of S.meaning call.now) }
        ensures one_call { OneCall (R.tables self.old.rule.now) (plain self.old) (step_of S.meaning call.now) result (plain self.new) }
    {
        match call {
            Call::Open { fields, source } => Answer::from(self.open(*fields, source)),
            Call::Restate { id, source } => Answer::from(self.restate(*id, source)),
            Call::Reduce { id, source } => Answer::from(self.reduce(*id, source)),
            Call::Post {
                branch,
                id,
                month,
                balance,
            } => Answer::from(self.post(*branch, *id, *month, *balance)),
            Call::Amend {
                branch,
                id,
                month,
                balance,
            } => Answer::from(self.amend(*branch, *id, *month, *balance)),
            Call::Part { id, branch } => self
                .part(*id, *branch)
                .map_or_else(Answer::Declined, Answer::Part),
            Call::Total { id } => self.total(*id).map_or_else(Answer::Declined, Answer::Total),
            Call::Sheet { branch } => self
                .sheet(*branch)
                .map_or_else(Answer::Declined, Answer::Sheet),
            Call::BookTotal => Answer::Book(self.book_total()),
        }
    }

    // The calls in their order, as many as there are places for their answers, and how many those were.
    pub fn run<S: Source>(&mut self, calls: &[Call<S>], answers: &mut [Answer]) -> usize
        ensures count { result ≡ min (length calls.now) (length answers.old) }
        ensures book { plain self.new ≡ run (R.tables self.old.rule.now) (plain self.old) (steps_of S.meaning (take result calls.now)) }
        ensures told { answers.new ≡ answered (R.tables self.old.rule.now) (plain self.old) (steps_of S.meaning (take result calls.now)) ++ drop result answers.old }
        ensures rule { self.new.rule ≡ self.old.rule }
        ensures throughout { HoldsThroughout (R.tables self.old.rule.now) (plain self.old) (steps_of S.meaning (take result calls.now)) (plain self.new) }
    {
        let count = calls.len().min(answers.len());
        // By index: after a `zip` with `iter_mut` a proof knows nothing, and `enumerate` over the answers would go by index too.
        for (i, call) in calls[..count].iter().enumerate() {
            let answer = self.apply(call);
            answers[i] = answer;
        }
        count
    }
}
