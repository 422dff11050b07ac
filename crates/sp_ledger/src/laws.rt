ghost use Rattle.std.specs.Prelude.{◌≡◌, ◌<◌, ◌≤◌, ◌+◌, ◌++◌, ◌∷◌, [], ℕ, true, max, IsTrue, List, map};
ghost use Rattle.std.specs.Prelude.{Option, Some, All, AllPairs, Contains, length, false, ◌==◌};
ghost use Rattle.sp_base.specs.Name.{is_caller};
ghost use Rattle.sp_base.specs.Refusal.{number_of};
ghost use Rattle.sp_base.specs.declared.refusal.Refusal.{Refusal};
ghost use Rattle.sp_copies.specs.History.{History, is_made, open_copies};
ghost use Rattle.sp_copies.specs.Sound.{HasOneFate};
ghost use Rattle.sp_endpoint.specs.Endpoint.{EndpointView};
ghost use Rattle.sp_endpoint.specs.Endpoints.{named};
ghost use Rattle.sp_endpoint.specs.Takers.{is_before, takers, takes_message};
ghost use Rattle.sp_event.specs.declared.answer.Reply.{Reply};
ghost use Rattle.sp_event.specs.declared.request.Event.{Event};
ghost use Rattle.sp_event.specs.declared.request.Event.TheVariants.{Bind, Restart};
ghost use Rattle.sp_event.specs.declared.request.Query.{Query};
ghost use Rattle.sp_ledger.specs.Allowed.{AreAllowed, IsAllowed, changes_of};
ghost use Rattle.sp_ledger.specs.Answer.{answer, gave};
ghost use Rattle.sp_ledger.specs.Changes.{Change, all_changed, changed};
ghost use Rattle.sp_ledger.specs.Events.{outcome, step};
ghost use Rattle.sp_ledger.specs.Ledger.{Ledger, Next, empty_ledger};
ghost use Rattle.sp_ledger.specs.Limits.{last_copy, spent};
ghost use Rattle.sp_ledger.specs.OnFlows.{deliveries, is_rebound, pulled, rebound};
ghost use Rattle.sp_ledger.specs.Order.{HandsOutInOrder};
ghost use Rattle.sp_ledger.specs.Rising.{NeverFall, checks_of};
ghost use Rattle.sp_ledger.specs.Sound.{AreNext, IsLedger, IsSound, IsWhole};
ghost use Rattle.sp_ledger.specs.Step.{accepted, begun, idle, refused};
ghost use Rattle.sp_ledger.specs.Tally.{IsBalanced, IsSmall, TellsBalanced, tally_in};
ghost use Rattle.sp_ledger.specs.Told.{Extends, IsLater, IsTold, ShowsFates, TellsFates};
ghost use Rattle.sp_message.specs.declared.message.Message.{Message};

/// The empty ledger has what a ledger has between two units, where its next numbers may be drawn.
pub fn the_empty_ledger_is_sound()
    ensures { (next : Next) (copy : ℕ) → AreNext next → next.unit ≤ spent → 0 < copy → copy ≤ last_copy + 1 →
        IsLedger (empty_ledger next copy) }
{}

/// Every accepted event keeps what a ledger has between two units.
pub fn each_event_keeps_the_ledger()
    ensures { (L : Ledger) → IsLedger L → (moment : ℕ) (caller : List ℕ) → IsTrue (is_caller caller) →
        (event : Event) (M : Ledger) (told : List Reply) → outcome moment caller event L ≡ accepted M told →
        IsLedger M }
{}

/// Each kind of change, where it is allowed, keeps a ledger sound, and so does a list of them.
pub fn each_change_keeps_the_ledger_sound()
    ensures one { (c : Change) (L : Ledger) → IsSound L → IsAllowed c L → IsSound (changed c L) }
    ensures many { (cs : List Change) (L : Ledger) → IsSound L → AreAllowed cs L → IsSound (all_changed cs L) }
{}

/// An accepted event's changes are allowed in the ledger in which it began, one after another, and
/// what they leave is the ledger after it.
pub fn each_event_makes_allowed_changes()
    ensures { (L : Ledger) → IsLedger L → (moment : ℕ) (caller : List ℕ) → IsTrue (is_caller caller) →
        (event : Event) (M : Ledger) (told : List Reply) → outcome moment caller event L ≡ accepted M told →
        AreAllowed (changes_of (step caller event (begun moment L))) (begun moment L)
        × (all_changed (changes_of (step caller event (begun moment L))) (begun moment L) ≡ M) }
{}

/// Along the checks of each event, with that of the unit's number last, the refusals' numbers never
/// fall; so what an event is refused is of the least number of all rules that it breaks.
pub fn the_least_refusal_is_told()
    ensures rise { (L : Ledger) (caller : List ℕ) (event : Event) (B : Ledger) →
        NeverFall 0 (checks_of L (step caller event B)) }
    ensures least { (L : Ledger) (moment : ℕ) (caller : List ℕ) (event : Event) (refusal : Refusal) →
        outcome moment caller event L ≡ refused refusal →
        All (λ c. c.broken ≡ true → number_of refusal ≤ number_of c.refusal)
        (checks_of L (step caller event (begun moment L))) }
{}

/// Every accepted event leaves all copies and closings.
pub fn each_event_extends_the_ledger()
    ensures { (L : Ledger) (moment : ℕ) (caller : List ℕ) (event : Event) (M : Ledger) (told : List Reply) →
        outcome moment caller event L ≡ accepted M told → Extends L M }
{}

/// Every accepted event is one unit, at the later of the ledger's moment and its own, and no number
/// is drawn twice.
pub fn each_event_is_one_unit()
    ensures unit { (L : Ledger) (moment : ℕ) (caller : List ℕ) (event : Event) (M : Ledger) (told : List Reply) →
        outcome moment caller event L ≡ accepted M told →
        (M.next.unit ≡ L.next.unit + 1) × (M.now ≡ max L.now moment) }
    ensures numbers { (L : Ledger) → IsLedger L → (moment : ℕ) (caller : List ℕ) → IsTrue (is_caller caller) →
        (event : Event) (M : Ledger) (told : List Reply) → outcome moment caller event L ≡ accepted M told →
        IsLater L M }
{}

/// A restart is never refused. Without flows it is idle; with flows it is accepted and leaves none,
/// and a number up to 2^62 is left for its unit.
pub fn a_restart_is_never_refused()
    ensures idle { (L : Ledger) → L.flows ≡ [] → (moment : ℕ) (caller : List ℕ) →
        outcome moment caller Restart L ≡ idle (Reply.Restart ∷ []) }
    ensures accepted { (L : Ledger) → (length L.flows == 0) ≡ false → (moment : ℕ) (caller : List ℕ) →
        (M : Ledger) × (outcome moment caller Restart L ≡ accepted M (Reply.Restart ∷ [])) × (M.flows ≡ []) }
    ensures number { (L : Ledger) → IsLedger L → (length L.flows == 0) ≡ false → L.next.unit ≤ spent }
{}

/// From a ledger's beginning on, as long as nothing is forgotten, the copies that were made are those
/// of all numbers from the first one on.
pub fn each_copy_ever_made_is_there()
    ensures empty { (next : Next) (first : ℕ) → IsWhole first (empty_ledger next first).copies }
    ensures kept { (first : ℕ) (L : Ledger) → IsWhole first L.copies → (moment : ℕ) (caller : List ℕ) (event : Event)
        (M : Ledger) (told : List Reply) → outcome moment caller event L ≡ accepted M told → IsWhole first M.copies }
{}

/// A copy that was made stands once among all copies, and is spooled or has its one closing.
pub fn each_copy_has_one_fate()
    ensures { (L : Ledger) → IsSound L → (copy : ℕ) → is_made L.copies.made copy ≡ true → HasOneFate L.copies copy }
{}

/// The fates that an event's reply tells are those that the copies have then, in the ledger after
/// the event, or where nothing changed. A query's answer shows them as long as their closings are
/// told.
pub fn each_fate_that_is_told_is_so()
    ensures accepted { (L : Ledger) → IsSound L → (moment : ℕ) (caller : List ℕ) (event : Event) (told : List Reply)
        (M : Ledger) → outcome moment caller event L ≡ accepted M told → All (TellsFates M.copies) told }
    ensures idle { (L : Ledger) → IsSound L → (moment : ℕ) (caller : List ℕ) (event : Event) (told : List Reply) →
        outcome moment caller event L ≡ idle told → All (TellsFates L.copies) told }
    ensures answered { (L : Ledger) (moment : ℕ) (caller : List ℕ) (query : Query) (reply : Reply) →
        answer moment caller query L ≡ gave reply → ShowsFates L.copies reply }
{}

/// A fate that was told stays, unless it was spooled, and a copy that was told stays made.
pub fn what_was_told_stays()
    ensures told { (H : History) (reply : Reply) → TellsFates H reply → IsTold H reply }
    ensures shown { (H : History) (reply : Reply) → ShowsFates H reply → IsTold H reply }
    ensures stays { (L M : Ledger) → Extends L M → (reply : Reply) → IsTold L.copies reply → IsTold M.copies reply }
{}

/// In every tally of a sound ledger, and so in each that is told, made is spooled, accepted, moved
/// and discarded together, and discarded is the sum over the causes. Its numbers fit 64 bits.
pub fn each_tally_is_balanced()
    ensures balanced { (L : Ledger) → IsSound L → (endpoint : Option ℕ) → IsBalanced (tally_in L.copies endpoint) }
    ensures answered { (L : Ledger) → IsSound L → (moment : ℕ) (caller : List ℕ) (query : Query) (reply : Reply) →
        answer moment caller query L ≡ gave reply → TellsBalanced reply }
    ensures accepted { (L : Ledger) (moment : ℕ) (caller : List ℕ) (event : Event) (told : List Reply) (M : Ledger) →
        outcome moment caller event L ≡ accepted M told → All TellsBalanced told }
    ensures idle { (L : Ledger) (moment : ℕ) (caller : List ℕ) (event : Event) (told : List Reply) →
        outcome moment caller event L ≡ idle told → All TellsBalanced told }
    ensures small { (L : Ledger) → IsSound L → (endpoint : Option ℕ) → IsSmall (tally_in L.copies endpoint) }
{}

/// A pull delivers each copy that it hands out, and no other.
pub fn each_copy_handed_out_is_delivered()
    ensures { (L : Ledger) → IsSound L → (e : EndpointView) (flow count : ℕ) →
        map (λ d. d.copy) (deliveries L (pulled L e flow count)) ≡ map (λ c. c.number) (pulled L e flow count) }
{}

/// Of two copies of one partition that a flow can reach, no pull hands out the later without the
/// earlier.
pub fn each_partition_is_handed_out_in_order()
    ensures accepted { (L : Ledger) → IsLedger L → (moment : ℕ) (caller : List ℕ) (event : Event) (told : List Reply)
        (M : Ledger) → outcome moment caller event L ≡ accepted M told → All (HandsOutInOrder (begun moment L)) told }
    ensures idle { (L : Ledger) → IsLedger L → (moment : ℕ) (caller : List ℕ) (event : Event) (told : List Reply) →
        outcome moment caller event L ≡ idle told → All (HandsOutInOrder (begun moment L)) told }
{}

/// A message goes once to each endpoint that takes it, and to no other: the takers' names rise,
/// each of them is an endpoint that takes it, and each such endpoint is one of them.
pub fn a_message_goes_once_to_each_taker()
    ensures rises { (L : Ledger) → IsSound L → (m : Message) →
        AllPairs (λ d e. is_before d.name e.name ≡ true) (takers L.endpoints m) }
    ensures takes { (L : Ledger) (m : Message) →
        All (λ e. (takes_message m e ≡ true) × Contains L.endpoints e) (takers L.endpoints m) }
    ensures stands { (L : Ledger) (m : Message) (e : EndpointView) → Contains L.endpoints e →
        takes_message m e ≡ true → Contains (takers L.endpoints m) e }
{}

/// Where a bind is accepted that gives an endpoint another topic or selector, no copy that was made
/// there is spooled any more.
pub fn another_topic_leaves_no_old_copy()
    ensures { (L : Ledger) (moment : ℕ) (caller name : List ℕ) (selector topic : Option (List ℕ)) (e : EndpointView)
        (M : Ledger) (told : List Reply) → outcome moment caller (Bind name selector topic) L ≡ accepted M told →
        named name L.endpoints ≡ Some e → is_rebound e (rebound e selector topic) ≡ true →
        open_copies M.copies e.number ≡ [] }
{}
