//! What the definitions say of each text, whatever the program does.
ghost use Rattle.std.specs.Prelude.{◌≡◌, ◌++◌, List, ℕ, None, Result, option_map};
ghost use Rattle.st_policy.specs.declared.denial.Denial.TheVariants.{Token as BadToken};
ghost use Rattle.st_policy.specs.declared.refusal.Refusal.TheVariants.{Denied};
ghost use Rattle.st_policy.specs.declared.reply.Reply.TheVariants.{Refused};
ghost use Rattle.st_core.specs.State.{State};
ghost use Rattle.st_core.specs.Step.{asker_of, after};
ghost use Rattle.st_service.specs.Answers.{Answers, AnswersAll, IsFound, NoneBusy, RepliesTo, reply_text, token_from, token_in};
ghost use Rattle.st_connection.specs.Connection.{Served};
ghost use Rattle.st_connection.specs.Streams.{Streams};
ghost use Rattle.st_connection.specs.declared.connection.Ended.{Ended};
ghost use Rattle.st_connection.specs.declared.connection.IoFault.{IoFault};
ghost use Rattle.st_service.specs.Worlds.{EachAsks, Event, Exchange, IsHistory, Unprivileged, answers, answers_to};
ghost use Rattle.st_service.specs.Worlds.{keep_history, keep_items, kept_of, requests};
ghost use Rattle.st_http.specs.First.{First};
ghost use Rattle.st_http.specs.declared.message.Message.{Message};
ghost use Rattle.st_text.specs.Texts.{Text};

use std::alloc::Allocator;

/// Where no answer is a 503, the items have one history: what each of them asks. The answers are those of the
/// history, and the state is that after its requests.
pub fn one_history<A: Allocator>()
    ensures there { (s t : State A) (items : List First) (texts : List (List ℕ)) → AnswersAll s items texts t → NoneBusy texts
        → (history : List (Event A)) × IsHistory items history }
    ensures alone { (items : List First) (history other : List (Event A))
        → IsHistory items history → IsHistory items other → history ≡ other }
    ensures answered { (s t : State A) (items : List First) (texts : List (List ℕ)) (history : List (Event A))
        → AnswersAll s items texts t → NoneBusy texts → IsHistory items history → texts ≡ answers s history }
    ensures leaves { (s t : State A) (items : List First) (texts : List (List ℕ)) (history : List (Event A))
        → AnswersAll s items texts t → NoneBusy texts → IsHistory items history → t ≡ after s (requests history) }
{}

/// Histories that agree on what a user may ever see give that user equal bytes: from one state, where the user holds SYSTEM at
/// no moment and the same is kept of both. Of the user's own items that is what they ask and how each reply to them is
/// written, so that a field of a head that nothing hangs on may differ. The same is kept, at the least, where the same items are kept.
pub fn equal_bytes<A: Allocator>()
    ensures told_the_same { (s : State A) (user : Text) (one two : Unprivileged user s) → kept_of one ≡ kept_of two
        → answers_to user one.items (answers s one.history) ≡ answers_to user two.items (answers s two.history) }
    ensures same_items { (s : State A) (user : Text) (one other : List (Event A)) → EachAsks one → EachAsks other
        → keep_items user s one ≡ keep_items user s other → keep_history user s one ≡ keep_history user s other }
{}

/// Connections that are served one after another from a state make one run.
pub fn connections_join<A: Allocator>()
    ensures { (s m t : State A) (items others : List First) (texts more : List (List ℕ)) → AnswersAll s items texts m
        → AnswersAll m others more t → AnswersAll s (items ++ others) (texts ++ more) t }
{}

/// So it is of what is served: two runs from one state without a 503, however many connections they are made of, answer the
/// user's items by equal bytes, where the user holds SYSTEM at no moment and the same is kept of both. By the second clause that
/// is said of two calls of `serve` too: the items of what a call's reader gave and the answers that it wrote are such a run.
pub fn equal_service<A: Allocator>()
    ensures runs { (s : State A) (user : Text) (one two : Exchange user s) → kept_of one.asked ≡ kept_of two.asked
        → answers_to user one.asked.items one.texts ≡ answers_to user two.asked.items two.texts }
    ensures served { (s t : State A) (streams : Streams) (result : Result Ended IoFault) (call : Served Answers s t streams result)
        → AnswersAll s call.within.items call.within.answers t }
{}

/// A message whose token does not hold is refused so, whatever its body is, and changes nothing.
pub fn strangers_are_refused<A: Allocator>()
    ensures { (s : State A) (m : Message) → IsFound m → asker_of s.directory (option_map token_from (token_in m)) ≡ None
        → RepliesTo s m (reply_text {A = A} (Refused (Denied BadToken)) m.close m.bare) s }
{}
