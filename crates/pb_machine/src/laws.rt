//! What holds of every state of the family and every line. Each function does nothing: its contract is a law.
ghost use Rattle.std.specs.Prelude.{◌≡◌, ℕ, ◌+◌, ◌==◌, false, true, List, Option, Some, None};
ghost use Rattle.pb_keys.specs.Map.{Map};
ghost use Rattle.pb_reply.specs.declared.refusal.Refusal.{Refusal};
ghost use Rattle.pb_reply.specs.declared.reply.Reply.TheVariants.{Value};
ghost use Rattle.pb_script.specs.Commands.{is_started};
ghost use Rattle.pb_script.specs.Form.{IsLine};
ghost use Rattle.pb_script.specs.declared.command.Command.{Command};
ghost use Rattle.pb_script.specs.declared.command.Command.TheVariants.{Get, Set};
ghost use Rattle.pb_script.specs.declared.line.Lane.TheVariants.{Fg, Bg};
ghost use Rattle.pb_script.specs.declared.line.Line.{Line};
ghost use Rattle.pb_script.specs.declared.line.Line.TheVariants.{Open, Start, Stop, Turn, Whole};
ghost use Rattle.pb_machine.specs.After.{effect_in, has_fallen, line_after, pending_by, store_named};
ghost use Rattle.pb_machine.specs.Agreement.{HasFallen, IsFamily, IsFold, IsStopped, SameHistory, StaysShut, opens};
ghost use Rattle.pb_machine.specs.Effects.{change_of, effect_of, lane_of};
ghost use Rattle.pb_machine.specs.Family.{FamilyState, start};
ghost use Rattle.pb_machine.specs.Ran.{Ran};
ghost use Rattle.pb_machine.specs.Replies.{refusal_to, reply_to};
ghost use Rattle.pb_machine.specs.Trail.{FindsItsHistory, RanLine, ReadsMap, changes_in, downs, replies, states_after};

/// A line leaves every store but the one that it names, and a line that names none leaves all.
pub fn others_stay()
    ensures named { (family : FamilyState) (line : Line) (ran : Ran) (store other : ℕ) → store_named family line ≡ Some store
        → (other == store) ≡ false → (line_after family line ran).stores other ≡ family.stores other }
    ensures none { (family : FamilyState) (line : Line) (ran : Ran) (other : ℕ) → store_named family line ≡ None
        → (line_after family line ran).stores other ≡ family.stores other }
{}

/// After a refusal each store's count and map are as before.
pub fn a_refusal_keeps_the_history()
    ensures { (family : FamilyState) (line : Line) (ran : Ran) (refusal : Refusal) (store : ℕ) → refusal_to family line ran ≡ Some refusal
        → SameHistory (family.stores store) ((line_after family line ran).stores store) }
{}

/// The opening number of a store rises by one at each accepted `open` of it, and at nothing else.
pub fn openings_rise()
    ensures opened { (family : FamilyState) (store : ℕ) (ran : Ran) → refusal_to family (Open store) ran ≡ None
        → ((line_after family (Open store) ran).stores store).opening ≡ (family.stores store).opening + 1 }
    ensures refused { (family : FamilyState) (line : Line) (ran : Ran) (refusal : Refusal) (store : ℕ)
        → refusal_to family line ran ≡ Some refusal → ((line_after family line ran).stores store).opening ≡ (family.stores store).opening }
    ensures others { (family : FamilyState) (line : Line) (ran : Ran) (store : ℕ) → opens line store ≡ false
        → ((line_after family line ran).stores store).opening ≡ (family.stores store).opening }
{}

/// What an accepted `set` has put there, the next `get` of the key answers, where it reads the map.
pub fn an_accepted_set_is_read()
    ensures { (family : FamilyState) (store : ℕ) (key value : List ℕ) (ran later : Ran)
        → refusal_to family (Whole store (Set key value)) ran ≡ None
        → refusal_to (line_after family (Whole store (Set key value)) ran) (Whole store (Get key)) later ≡ None
        → ReadsMap (line_after family (Whole store (Set key value)) ran) (Whole store (Get key)) later
        → reply_to (line_after family (Whole store (Set key value)) ran) (Whole store (Get key)) later ≡ Value value }
{}

/// A store that has fallen is Down, its lanes are empty, and what may have been accepted is pending: the change of a whole command or
/// of lane fg's command in its turn, and nothing of lane bg.
pub fn a_fall_leaves_its_command_pending()
    ensures any { (family : FamilyState) (line : Line) (ran : Ran) (refusal : Refusal) (store : ℕ) → refusal_to family line ran ≡ Some refusal
        → store_named family line ≡ Some store → has_fallen family ran store ≡ true
        → HasFallen (pending_by family line ran) ((line_after family line ran).stores store) }
    ensures whole { (family : FamilyState) (store : ℕ) (command : Command) (ran : Ran)
        → pending_by family (Whole store command) ran ≡ change_of (effect_of family command) ran }
    ensures fg { (family : FamilyState) (store : ℕ) (ran : Ran) → pending_by family (Turn store Fg) ran ≡ effect_in (family.stores store).fg ran }
    ensures bg { (family : FamilyState) (store : ℕ) (ran : Ran) → pending_by family (Turn store Bg) ran ≡ None }
{}

/// A command that a `stop` ends between two of its turns is not pending, and what was pending stays so.
pub fn a_stopped_command_is_not_pending()
    ensures { (family : FamilyState) (store : ℕ) (ran : Ran) → refusal_to family (Stop store) ran ≡ None
        → IsStopped (family.stores store) ((line_after family (Stop store) ran).stores store) }
{}

/// The family before the first line is in form, and each line of a right run keeps it so.
pub fn the_family_stays_in_form()
    ensures start { (maps : ℕ → Map) → IsFamily (start maps) }
    ensures lines { (family : FamilyState) (line : Line) (ran : Ran) → IsLine line → IsFamily family → RanLine family line ran
        → IsFamily (line_after family line ran) }
{}

/// Where openings find the history, the count and the map of a store are those that it began with and the changes accepted since, in
/// order. It begins with its first opening, which keeps its map and takes the count that it finds; until then it stays as it was.
pub fn history_is_its_fold()
    ensures begun { (family : FamilyState) (lines : List Line) (ran : List Ran) (store : ℕ)
        → (family.stores store).history.has_begun ≡ true → FindsItsHistory family lines ran
        → IsFold (family.stores store).history (changes_in family lines ran store) ((states_after family lines ran).stores store).history }
    ensures first { (family : FamilyState) (store : ℕ) (ran : Ran) → refusal_to family (Open store) ran ≡ None
        → (family.stores store).history.has_begun ≡ false → ((line_after family (Open store) ran).stores store).history
        ≡ record { has_begun = true; count = ran.mark.count; map = (family.stores store).history.map; pending = None } }
    ensures before { (family : FamilyState) (line : Line) (ran : Ran) (store : ℕ) → opens line store ≡ false
        → StaysShut (family.stores store) ((line_after family line ran).stores store) }
{}

/// `start X c` and its last turn leave what `X c` leaves, and that turn replies what `X c` replies, where both came to the same.
pub fn turn_ends_what_start_began()
    ensures reply { (family : FamilyState) (store : ℕ) (command : Command) (started ran : Ran) → is_started command ≡ true
        → refusal_to family (Start store command) started ≡ None → ran.mark.more ≡ false
        → reply_to (line_after family (Start store command) started) (Turn store (lane_of command)) ran
        ≡ reply_to family (Whole store command) ran }
    ensures after { (family : FamilyState) (store : ℕ) (command : Command) (started ran : Ran) → is_started command ≡ true
        → refusal_to family (Start store command) started ≡ None → ran.mark.more ≡ false
        → line_after (line_after family (Start store command) started) (Turn store (lane_of command)) ran
        ≡ line_after family (Whole store command) ran }
{}

/// What is replied, and which stores are Down, doesn't ask the maps with which the stores begin.
pub fn replies_ask_no_map()
    ensures replies { (maps others : ℕ → Map) (lines : List Line) (ran : List Ran)
        → replies (start maps) lines ran ≡ replies (start others) lines ran }
    ensures downs { (maps others : ℕ → Map) (lines : List Line) (ran : List Ran)
        → downs (states_after (start maps) lines ran) ≡ downs (states_after (start others) lines ran) }
{}
