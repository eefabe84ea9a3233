//! Laws of what words result in. They need no value, and run nothing.
ghost use Rattle.std.specs.Prelude.{◌≡◌, ◌≢◌, ◌⊎◌, List, ℕ, [], ◌∷◌, Some, true, codes};
ghost use Rattle.command_line.specs.Order.{Order, bare_texts, Asked, order, service, one, check, run, threads, capture, serve, trace, history};
ghost use Rattle.command_line.specs.CommandLine.{AreRefused, AreWrong, AsksHelp, AsksVersion, IsHelpWord, NamesOrder, NamesService, command, reading};
ghost use Rattle.command_line.specs.Names.{name_text};
ghost use Rattle.command_line.specs.Options.{no_options};
ghost use Rattle.command_line.specs.declared.names.CommandName.{CommandName};
ghost use Rattle.command_line.specs.declared.names.CommandName.TheVariants.{History};
ghost use Rattle.command_line.specs.declared.asked.ServiceWord.TheVariants.{Resume, Restore, Snapshot};

/// States that all words are an order's, ask for help, begin with clap's own `help`, or are wrong;
/// of these they are one alone, and of one order.
pub fn words_come_to_one()
    ensures some { (words : List (List ℕ)) → ((o : Order) × NamesOrder words o)
        ⊎ (AsksHelp words ⊎ (IsHelpWord words ⊎ AreWrong words)) }
    ensures once { (words : List (List ℕ)) → (o : Order) → (p : Order)
        → NamesOrder words o → NamesOrder words p → o ≡ p }
    ensures named_not_asked { (words : List (List ℕ)) → (o : Order) → NamesOrder words o → AsksHelp words → ⊥ }
    ensures named_not_help { (words : List (List ℕ)) → (o : Order) → NamesOrder words o → IsHelpWord words → ⊥ }
    ensures asked_not_help { (words : List (List ℕ)) → AsksHelp words → IsHelpWord words → ⊥ }
{}

/// States that words which the program refuses are wrong for `run_program` too.
pub fn refused_are_wrong()
    ensures { (words : List (List ℕ)) → AreRefused words → AreWrong words }
{}

/// States that each order's words name it, alone or with two hyphens after them. After two hyphens any word is an operator's name.
pub fn orders_are_named()
    ensures one { NamesOrder (codes "one" ∷ []) one }
    ensures check { NamesOrder (codes "check" ∷ []) check }
    ensures run { NamesOrder (codes "run" ∷ []) run }
    ensures ended { NamesOrder (codes "run" ∷ codes "--" ∷ []) run }
    ensures threads { NamesOrder (codes "threads" ∷ []) threads }
    ensures capture { NamesOrder (codes "capture" ∷ []) capture }
    ensures serve { NamesOrder (codes "serve" ∷ []) serve }
    ensures trace { NamesOrder (codes "trace" ∷ []) trace }
    ensures history { NamesOrder (codes "history" ∷ codes "A" ∷ []) (history (codes "A")) }
    ensures operand { (name : List ℕ) → NamesOrder (codes "history" ∷ codes "--" ∷ name ∷ []) (history name) }
    ensures bare { (asked : Asked) → reading (bare_texts asked) ≡ command asked no_options }
{}

/// States that the words of each service name it.
pub fn services_are_named()
    ensures resume { NamesService (codes "resume" ∷ []) Resume }
    ensures restore { NamesService (codes "restore" ∷ []) Restore }
    ensures snapshot { NamesService (codes "snapshot" ∷ []) Snapshot }
{}

/// States that options are read before a command and after it.
pub fn options_are_read()
    ensures after { reading (codes "run" ∷ codes "--json" ∷ []) ≡ command (order run) (record no_options { has_json = true }) }
    ensures before { reading (codes "--strict" ∷ codes "check" ∷ []) ≡ command (order check) (record no_options { has_strict = true }) }
    ensures file { reading (codes "one" ∷ codes "--input" ∷ codes "a" ∷ []) ≡ command (order one) (record no_options { input = Some (codes "a") }) }
    ensures equals { reading (codes "resume" ∷ codes "--input=a" ∷ []) ≡ command (service Resume) (record no_options { input = Some (codes "a") }) }
    ensures state { reading (codes "--state" ∷ codes "d" ∷ codes "serve" ∷ codes "--snapshot-every" ∷ codes "5" ∷ [])
        ≡ command (order serve) (record no_options { state = Some (codes "d"); snapshot_every = Some (codes "5") }) }
{}

/// States that an option is refused that is there twice, has no value, is not one of the command's, or does not go with the others.
pub fn options_are_refused()
    ensures twice { AreRefused (codes "run" ∷ codes "--json" ∷ codes "--json" ∷ []) }
    ensures both { AreRefused (codes "--json" ∷ codes "run" ∷ codes "--json" ∷ []) }
    ensures no_value { AreRefused (codes "check" ∷ codes "--input" ∷ []) }
    ensures not_after { AreRefused (codes "snapshot" ∷ codes "--json" ∷ []) }
    ensures not_before { AreRefused (codes "--strict" ∷ codes "run" ∷ []) }
    ensures without { AreRefused (codes "serve" ∷ codes "--snapshot-every" ∷ codes "5" ∷ []) }
    ensures together { AreRefused (codes "serve" ∷ codes "--json" ∷ codes "--state" ∷ codes "d" ∷ []) }
    ensures no_command { AreRefused (codes "--json" ∷ []) }
{}

/// States that the flags ask for help, alone, after a command, after its operand and after an option.
pub fn help_is_asked()
    ensures long { AsksHelp (codes "--help" ∷ []) }
    ensures short { AsksHelp (codes "-h" ∷ []) }
    ensures word { AsksHelp (codes "run" ∷ codes "--help" ∷ []) }
    ensures service { AsksHelp (codes "resume" ∷ codes "--help" ∷ []) }
    ensures operand { AsksHelp (codes "history" ∷ codes "A" ∷ codes "-h" ∷ []) }
    ensures option { AsksHelp (codes "serve" ∷ codes "--state" ∷ codes "d" ∷ codes "--help" ∷ []) }
{}

/// States that the flags ask for the version, and only alone.
pub fn version_is_asked()
    ensures long { AsksVersion (codes "--version" ∷ []) }
    ensures short { AsksVersion (codes "-V" ∷ []) }
    ensures before { AreRefused (codes "--version" ∷ codes "run" ∷ []) }
    ensures after { AreRefused (codes "run" ∷ codes "--version" ∷ []) }
{}

/// States that no word, an unknown word, and a word too many or too few are wrong.
pub fn others_are_wrong()
    ensures none { AreRefused [] }
    ensures unknown { AreRefused (codes "wrong" ∷ []) }
    ensures second { AreRefused (codes "one" ∷ codes "more" ∷ []) }
    ensures no_operand { AreRefused (codes "history" ∷ []) }
    ensures second_operand { AreRefused (codes "history" ∷ codes "A" ∷ codes "B" ∷ []) }
    ensures help_after { AreRefused (codes "restore" ∷ codes "help" ∷ []) }
{}

/// States that a command but `history` has no operand: a word after its name that begins with no hyphen is wrong, whatever follows.
pub fn commands_have_no_operand()
    ensures { (name : CommandName) → (word : List ℕ) → (rest : List (List ℕ)) → name ≢ History
        → ((t : List ℕ) → word ≢ 45 ∷ t) → AreRefused (name_text name ∷ word ∷ rest) }
{}

/// States that a first word is wrong unless it is a command, an option or `help`, whatever follows.
pub fn other_names_are_wrong()
    ensures { (word : List ℕ) → (rest : List (List ℕ)) → ((name : CommandName) → word ≢ name_text name) → word ≢ codes "help"
        → ((t : List ℕ) → word ≢ 45 ∷ t) → AreRefused (word ∷ rest) }
{}
