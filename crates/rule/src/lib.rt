#![tactic(auto)]

ghost use Rattle.std.specs.Prelude.{true, ◌≡◌};
ghost use Rattle.rule.specs.Theorems.{BusyBeforeChanged, OtherStatusStays};
ghost use Rattle.rule.specs.Theorems.{UpdatesGoToActiveClients, ChangesAreSentToAll, GoodChangesAreMade, ReadingsAreSentToAll};
ghost use Rattle.rule.specs.Theorems.{UnreadablesAreSentToAll, ValuesAlterBySettings, SettingsAreAll, ActivationsSendAll};
ghost use Rattle.rule.specs.Theorems.{GoodActivationsAreMade, ActivationsAreOnesOwn, ParametersBelong, OneReplyForEachLine, PiecesAreUsed};
ghost use Rattle.rule.specs.Theorems.{ReadsAreTrue, GoodReadsAreAnswered, CommandsAreOrdered, GoodCommandsAreOrdered};
ghost use Rattle.rule.specs.Theorems.{ErrorsAlterNothing, BadChangesAreRefused, ChecksAreAsChanges, CheckLinesAreAsChangeLines, RefusalsAlterNothing};
ghost use Rattle.rule.specs.Parts.{PartsAreMerged};

// Each function here promises a theorem about the definitions. Nothing is run.

// An update goes to an open client that has its module active, and tells of a parameter as it stands.
pub fn updates_go_to_active_clients() -> bool
    ensures { (result ≡ true) × UpdatesGoToActiveClients }
{
    true
}

// A change sets what its line asked for, and is sent once to each client that has the module active, and to nobody else.
pub fn changes_are_sent_to_all() -> bool
    ensures { (result ≡ true) × ChangesAreSentToAll }
{
    true
}

// A change of a parameter that is there and not readonly, by a value that fits, is made.
pub fn good_changes_are_made() -> bool
    ensures { (result ≡ true) × GoodChangesAreMade }
{
    true
}

// Whoever has the module active has been sent the busy status before the requester is sent `changed`, where `target` was changed in a module whose
// status admits it.
pub fn busy_before_changed() -> bool
    ensures { (result ≡ true) × BusyBeforeChanged }
{
    true
}

// A status whose datainfo doesn't admit busy stays as it is, and nothing is sent for it.
pub fn other_status_stays() -> bool
    ensures { (result ≡ true) × OtherStatusStays }
{
    true
}

// An accepted reading is sent to the same clients.
pub fn readings_are_sent_to_all() -> bool
    ensures { (result ≡ true) × ReadingsAreSentToAll }
{
    true
}

// An accepted report that a parameter can't be read is sent to the same clients, as `error_update`.
pub fn unreadables_are_sent_to_all() -> bool
    ensures { (result ≡ true) × UnreadablesAreSentToAll }
{
    true
}

// Nothing else alters a value.
pub fn values_alter_by_settings() -> bool
    ensures { (result ≡ true) × ValuesAlterBySettings }
{
    true
}

// What a call sets is all that alters a value.
pub fn settings_are_all() -> bool
    ensures { (result ≡ true) × SettingsAreAll }
{
    true
}

// An activation sends its client each parameter in scope, and nobody else any.
pub fn activations_send_all() -> bool
    ensures { (result ≡ true) × ActivationsSendAll }
{
    true
}

// An activation of all modules, or of one that is there, is made, and so is a deactivation.
pub fn good_activations_are_made() -> bool
    ensures { (result ≡ true) × GoodActivationsAreMade }
{
    true
}

// A module is active for a client by its own requests since its open, and by nothing else.
pub fn activations_are_ones_own() -> bool
    ensures { (result ≡ true) × ActivationsAreOnesOwn }
{
    true
}

// A parameter stands in the module under whose name it is sent.
pub fn parameters_belong() -> bool
    ensures { (result ≡ true) × ParametersBelong }
{
    true
}

// Each line feed that is used has one final reply, to its sender, and nobody else has one.
pub fn one_reply_for_each_line() -> bool
    ensures { (result ≡ true) × OneReplyForEachLine }
{
    true
}

// A piece is used up to its first line feed; its line is then empty, and nobody else's is touched.
pub fn pieces_are_used() -> bool
    ensures { (result ≡ true) × PiecesAreUsed }
{
    true
}

// A read is replied to with what the node holds of the parameter that was asked for.
pub fn reads_are_true() -> bool
    ensures { (result ≡ true) × ReadsAreTrue }
{
    true
}

// A read of a parameter that is there is answered with what the node holds of it.
pub fn good_reads_are_answered() -> bool
    ensures { (result ≡ true) × GoodReadsAreAnswered }
{
    true
}

// A command is ordered as its line asked for it.
pub fn commands_are_ordered() -> bool
    ensures { (result ≡ true) × CommandsAreOrdered }
{
    true
}

// A command that is there, with an argument that fits, is ordered and done.
pub fn good_commands_are_ordered() -> bool
    ensures { (result ≡ true) × GoodCommandsAreOrdered }
{
    true
}

// A line that is answered by an error sends nothing else, alters no value, empties only its sender's line, and is counted with its reply and nothing else.
pub fn errors_alter_nothing() -> bool
    ensures { (result ≡ true) × ErrorsAlterNothing }
{
    true
}

// A change of a parameter that is there, but is readonly, or by a value that doesn't fit, is refused with the error of document 01's order.
pub fn bad_changes_are_refused() -> bool
    ensures { (result ≡ true) × BadChangesAreRefused }
{
    true
}

// A check is answered as the change of the same would be, by what it would store or by the same error; it stores nothing and sends nothing else.
pub fn checks_are_as_changes() -> bool
    ensures { (result ≡ true) × ChecksAreAsChanges }
{
    true
}

// The same of two lines that say `check` and `change` with the same specifier and data, whatever these are: malformed ones too.
pub fn check_lines_are_as_change_lines() -> bool
    ensures { (result ≡ true) × CheckLinesAreAsChangeLines }
{
    true
}

// Of a struct with optional members a change may leave these out, and they keep what is shown, byte for byte; what is given is stored as ever, all in table
// order. What is required, or left out where nothing is shown, is WrongType. Nothing else is merged.
pub fn parts_are_merged() -> bool
    ensures { (result ≡ true) × PartsAreMerged }
{
    true
}

// A call that is refused by a number uses nothing, writes nothing and alters nothing.
pub fn refusals_alter_nothing() -> bool
    ensures { (result ≡ true) × RefusalsAlterNothing }
{
    true
}
