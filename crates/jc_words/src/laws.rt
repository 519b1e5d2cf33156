//! Laws of what is asked: what some words ask for, and that what has to be there is.
ghost use Rattle.std.specs.Prelude.{◌≡◌, ◌≤◌, ℕ, length, List, [], ◌∷◌, ◌++◌, Ok, Err, Some, true, codes, IsSome};
ghost use Rattle.clap.specs.Words.{Row, Text, first_of};
ghost use Rattle.jc_words.specs.Arguments.{taken};
ghost use Rattle.jc_words.specs.Command.{asked, HistoryOf, ClientsOf, CheckCommand, LinkCommand, MakeCommand, HistoryCommand, ClientsCommand, HelpCommand, check_arguments, history_arguments, clients_arguments, link_arguments, make_arguments};
ghost use Rattle.jc_words.specs.Help.{help_page, words_of, named_in, names_of};
ghost use Rattle.jc_words.specs.declared.usage.Usage.TheVariants as usages;
ghost use Rattle.jc_words.specs.Worked.{typed, plain_check, plain_link, plain_history, plain_clients};

/// Options stand in any order, and a value follows its option or an equals sign, whatever it is.
pub fn options_in_any_order()
    ensures check { asked (typed (codes "check --platform P --old O --new N")) ≡ Ok (CheckCommand plain_check) }
    ensures check_turned_round { asked (typed (codes "check --new N --old O --platform P")) ≡ Ok (CheckCommand plain_check) }
    ensures check_with_all { asked (typed (codes "check --new=N --json --old O --gate few --witness D --platform=P")) ≡ Ok (CheckCommand (record plain_check { witness = Some (codes "D"); json = true; gates = codes "few" ∷ [] })) }
    ensures gates { asked (typed (codes "check --platform P --old O --new N --gate links,,few")) ≡ Ok (CheckCommand (record plain_check { gates = codes "links" ∷ [] ∷ codes "few" ∷ [] })) }
    ensures gate_empty { asked (typed (codes "check --platform P --old O --new N --gate=")) ≡ Ok (CheckCommand (record plain_check { gates = [] ∷ [] })) }
    ensures warnings { asked (typed (codes "check --warn --platform P --old O --new N")) ≡ Ok (CheckCommand (record plain_check { warn = true })) }
    ensures signatures { asked (typed (codes "check --platform P --old O --signatures --new N")) ≡ Ok (CheckCommand (record plain_check { signatures = true })) }
    ensures dropped { asked (typed (codes "check --dropped --platform P --old O --new N --warn")) ≡ Ok (CheckCommand (record plain_check { warn = true; dropped = true })) }
    ensures calls { asked (typed (codes "check --platform P --dropped --old O --new N --calls")) ≡ Ok (CheckCommand (record plain_check { dropped = true; calls = true })) }
    ensures modular { asked (typed (codes "check --platform P --old O --modular --new N")) ≡ Ok (CheckCommand (record plain_check { modular = true })) }
    ensures versions { asked (typed (codes "check --platform P --to 2 --old O --new N --from=1")) ≡ Ok (CheckCommand (record plain_check { from = Some (codes "1"); to = Some (codes "2") })) }
    ensures link { asked (typed (codes "link --platform P --release R --client C")) ≡ Ok (LinkCommand plain_link) }
    ensures link_turned_round { asked (typed (codes "link --client=C --platform P --release R")) ≡ Ok (LinkCommand plain_link) }
    ensures link_modular { asked (typed (codes "link --modular --platform P --release R --client C")) ≡ Ok (LinkCommand (record plain_link { modular = true })) }
    ensures value_empty { asked (typed (codes "check --platform= --old O --new N")) ≡ Ok (CheckCommand (record plain_check { platform = [] })) }
    ensures value_hyphen { asked (typed (codes "check --platform - --old O --new N")) ≡ Ok (CheckCommand (record plain_check { platform = codes "-" })) }
    ensures value_with_equals_sign { asked (typed (codes "check --platform=a=b --old O --new N")) ≡ Ok (CheckCommand (record plain_check { platform = codes "a=b" })) }
    ensures value_as_a_command { asked (typed (codes "check --platform link --old O --new N")) ≡ Ok (CheckCommand (record plain_check { platform = codes "link" })) }
    ensures dashes_last { asked (typed (codes "check --platform P --old O --new N --")) ≡ Ok (CheckCommand plain_check) }
{}

/// No command takes words that leave out an option that has to be there, use one twice or without
/// its value, give a flag a value, or hold a word of no option or an option that it doesn't have, be
/// it for help or a version.
pub fn words_not_taken()
    ensures no_option { asked (typed (codes "check")) ≡ Err usages.Words }
    ensures one_option { asked (typed (codes "check --platform P")) ≡ Err usages.Words }
    ensures all_options_but_one { asked (typed (codes "check --platform P --new N")) ≡ Err usages.Words }
    ensures link_but_one { asked (typed (codes "link --platform P --release R")) ≡ Err usages.Words }
    ensures gate_without_value { asked (typed (codes "check --platform P --old O --new N --gate")) ≡ Err usages.Words }
    ensures gate_twice { asked (typed (codes "check --platform P --old O --new N --gate links --gate few")) ≡ Err usages.Words }
    ensures twice { asked (typed (codes "check --platform P --old O --new N --old O")) ≡ Err usages.Words }
    ensures link_twice { asked (typed (codes "link --platform P --release R --client C --client C")) ≡ Err usages.Words }
    ensures flag_twice { asked (typed (codes "check --platform P --old O --new N --json --json")) ≡ Err usages.Words }
    ensures without_value { asked (typed (codes "check --platform P --old O --new")) ≡ Err usages.Words }
    ensures option_as_value { asked (typed (codes "check --platform --old O --new N")) ≡ Err usages.Words }
    ensures dashes_as_value { asked (typed (codes "check --old O --new N --platform -- P")) ≡ Err usages.Words }
    ensures value_of_flag { asked (typed (codes "check --platform P --old O --new N --json=x")) ≡ Err usages.Words }
    ensures true_of_flag { asked (typed (codes "check --platform P --old O --new N --json=true")) ≡ Err usages.Words }
    ensures value_of_signatures { asked (typed (codes "check --platform P --old O --new N --signatures=no")) ≡ Err usages.Words }
    ensures value_of_calls { asked (typed (codes "check --platform P --old O --new N --calls=yes")) ≡ Err usages.Words }
    ensures calls_of_link { asked (typed (codes "link --platform P --release R --client C --calls")) ≡ Err usages.Words }
    ensures value_of_modular { asked (typed (codes "link --platform P --release R --client C --modular=no")) ≡ Err usages.Words }
    ensures modular_twice { asked (typed (codes "link --modular --platform P --release R --client C --modular")) ≡ Err usages.Words }
    ensures word_of_no_option { asked (typed (codes "check --platform P --old O --new N more")) ≡ Err usages.Words }
    ensures empty_word { asked (typed (codes "check --platform P --old O --new N ")) ≡ Err usages.Words }
    ensures word_after_dashes { asked (typed (codes "check --platform P --old O --new N -- more")) ≡ Err usages.Words }
    ensures unknown_option { asked (typed (codes "check --platform P --old O --new N --quiet")) ≡ Err usages.Words }
    ensures option_of_link { asked (typed (codes "check --platform P --old O --new N --client C")) ≡ Err usages.Words }
    ensures option_of_check { asked (typed (codes "link --platform P --release R --client C --json")) ≡ Err usages.Words }
    ensures help { asked (typed (codes "check --platform P --old O --new N --help")) ≡ Err usages.Words }
    ensures short_help { asked (typed (codes "check --platform P --old O --new N -h")) ≡ Err usages.Words }
    ensures version { asked (typed (codes "check --platform P --old O --new N --version")) ≡ Err usages.Words }
    ensures part_of_an_option { asked (typed (codes "check --plat P --old O --new N")) ≡ Err usages.Words }
    ensures one_hyphen { asked (typed (codes "check -platform P --old O --new N")) ≡ Err usages.Words }
{}

/// `make` takes one word that is no option, the decimal digits of a number from 1 to 4,096, and names
/// any other.
pub fn numbers_of_classes()
    ensures least { asked (typed (codes "make 1")) ≡ Ok (MakeCommand 1) }
    ensures most { asked (typed (codes "make 4096")) ≡ Ok (MakeCommand 4096) }
    ensures after_dashes { asked (typed (codes "make -- 8")) ≡ Ok (MakeCommand 8) }
    ensures zero { asked (typed (codes "make 0")) ≡ Err (usages.Number (codes "0")) }
    ensures too_many { asked (typed (codes "make 4097")) ≡ Err (usages.Number (codes "4097")) }
    ensures leading_zero { asked (typed (codes "make 08")) ≡ Err (usages.Number (codes "08")) }
    ensures sign { asked (typed (codes "make +8")) ≡ Err (usages.Number (codes "+8")) }
    ensures sign_after_dashes { asked (typed (codes "make -- -8")) ≡ Err (usages.Number (codes "-8")) }
    ensures letter { asked (typed (codes "make 1x")) ≡ Err (usages.Number (codes "1x")) }
    ensures empty_word { asked (typed (codes "make ")) ≡ Err (usages.Number []) }
    ensures twenty_digits { asked (typed (codes "make 18446744073709551617")) ≡ Err (usages.Number (codes "18446744073709551617")) }
    ensures no_number { asked (typed (codes "make")) ≡ Err usages.Words }
    ensures two_numbers { asked (typed (codes "make 8 8")) ≡ Err usages.Words }
    ensures short_option { asked (typed (codes "make -8")) ≡ Err usages.Words }
    ensures option_of_check { asked (typed (codes "make 8 --json")) ≡ Err usages.Words }
    ensures modular { asked (typed (codes "make --modular 8")) ≡ Err usages.Words }
{}

/// A number of classes that is asked for is from 1 to 4,096.
pub fn numbers_have_bounds()
    ensures { (words : List Text) (n : ℕ) → asked words ≡ Ok (MakeCommand n) → (1 ≤ n) × (n ≤ 4096) }
{}

/// `history` takes the words that are no options, in their order, and wherever its option stands: from 2
/// to 20 releases, and it says how many there are otherwise.
pub fn rows_of_releases()
    ensures two { asked (typed (codes "history --platform P A B")) ≡ Ok (HistoryCommand plain_history) }
    ensures option_between { asked (typed (codes "history A --platform P B")) ≡ Ok (HistoryCommand plain_history) }
    ensures option_last { asked (typed (codes "history A B --platform=P")) ≡ Ok (HistoryCommand plain_history) }
    ensures after_dashes { asked (typed (codes "history --platform P -- A --platform")) ≡ Ok (HistoryCommand (record plain_history { releases = codes "A" ∷ codes "--platform" ∷ [] })) }
    ensures twice_one { asked (typed (codes "history --platform P A A")) ≡ Ok (HistoryCommand (record plain_history { releases = codes "A" ∷ codes "A" ∷ [] })) }
    ensures twenty { asked (typed (codes "history --platform P a a a a a a a a a a a a a a a a a a a a")) ≡ Ok (HistoryCommand (record plain_history { releases = typed (codes "a a a a a a a a a a a a a a a a a a a a") })) }
    ensures none { asked (typed (codes "history --platform P")) ≡ Err (usages.Releases 0) }
    ensures one { asked (typed (codes "history --platform P A")) ≡ Err (usages.Releases 1) }
    ensures twenty_one { asked (typed (codes "history --platform P a a a a a a a a a a a a a a a a a a a a a")) ≡ Err (usages.Releases 21) }
    ensures no_platform { asked (typed (codes "history A B")) ≡ Err usages.Words }
    ensures platform_twice { asked (typed (codes "history --platform P A --platform P B")) ≡ Err usages.Words }
    ensures option_of_check { asked (typed (codes "history --platform P A B --json")) ≡ Err usages.Words }
    ensures gate { asked (typed (codes "history --platform P A B --gate links")) ≡ Err usages.Words }
    ensures signatures { asked (typed (codes "history --platform P A B --signatures")) ≡ Err usages.Words }
    ensures modular { asked (typed (codes "history --modular --platform P A B")) ≡ Err usages.Words }
{}

/// Of a row that is asked for there are from 2 to 20 releases.
pub fn rows_have_bounds()
    ensures { (words : List Text) (h : HistoryOf) → asked words ≡ Ok (HistoryCommand h) → (2 ≤ length h.releases) × (length h.releases ≤ 20) }
{}

/// `clients` takes the words that are no options, in their order, and wherever its options stand: the roots
/// of from 1 to 1,000 clients.
pub fn clients_of_two_releases()
    ensures two { asked (typed (codes "clients --platform P --old O --new N A B")) ≡ Ok (ClientsCommand plain_clients) }
    ensures options_last { asked (typed (codes "clients A B --new N --platform=P --old O")) ≡ Ok (ClientsCommand plain_clients) }
    ensures one { asked (typed (codes "clients --platform P --old O --new N A")) ≡ Ok (ClientsCommand (record plain_clients { clients = codes "A" ∷ [] })) }
    ensures none { asked (typed (codes "clients --platform P --old O --new N")) ≡ Err (usages.Clients 0) }
    ensures no_new { asked (typed (codes "clients --platform P --old O A")) ≡ Err usages.Words }
    ensures modular { asked (typed (codes "clients --platform P --old O --new N --modular A B")) ≡ Ok (ClientsCommand (record plain_clients { modular = true })) }
    ensures flags_between { asked (typed (codes "clients --json A --platform P --old O --new N --modular B")) ≡ Ok (ClientsCommand (record plain_clients { json = true; modular = true })) }
    ensures used { asked (typed (codes "clients --used --platform P --old O --new N A B")) ≡ Ok (ClientsCommand (record plain_clients { used = true })) }
    ensures option_of_check { asked (typed (codes "clients --platform P --old O --new N --warn A")) ≡ Err usages.Words }
{}

/// Whatever words ask for clients of two releases name from 1 to 1,000 of them.
pub fn clients_have_bounds()
    ensures { (words : List Text) (c : ClientsOf) → asked words ≡ Ok (ClientsCommand c) → (1 ≤ length c.clients) × (length c.clients ≤ 1000) }
{}

/// `help` takes no word.
pub fn help_alone()
    ensures alone { asked (typed (codes "help")) ≡ Ok HelpCommand }
    ensures further { (word : Text) (words : List Text) → asked (codes "help" ∷ word ∷ words) ≡ Err usages.Words }
{}

/// The page of help names each command and, behind it, its options in the order of its arguments, and no
/// other.
pub fn page_has_each_option()
    ensures { named_in (words_of help_page) ≡ names_of check_arguments ++ names_of history_arguments ++ names_of clients_arguments ++ names_of link_arguments ++ names_of make_arguments ++ codes "help" ∷ [] }
{}

/// The first word is the command, whatever follows.
pub fn command_first()
    ensures no_word { asked [] ≡ Err usages.NoCommand }
    ensures unknown_command { asked (typed (codes "compare")) ≡ Err (usages.UnknownCommand (codes "compare")) }
    ensures unknown_before_words { asked (typed (codes "compare --platform P --platform P")) ≡ Err (usages.UnknownCommand (codes "compare")) }
    ensures empty_command { asked (typed (codes "")) ≡ Err (usages.UnknownCommand []) }
    ensures part_of_a_command { asked (typed (codes "chec")) ≡ Err (usages.UnknownCommand (codes "chec")) }
    ensures other_case { asked (typed (codes "Check")) ≡ Err (usages.UnknownCommand (codes "Check")) }
    ensures option_first { asked (typed (codes "--platform P check --old O --new N")) ≡ Err (usages.UnknownCommand (codes "--platform")) }
    ensures help { asked (typed (codes "--help")) ≡ Err (usages.UnknownCommand (codes "--help")) }
{}

/// Where `clap` takes the words, each option that has to be there has a value.
pub fn required_options_have_values()
    ensures check { (words : List Text) (rows : List Row) → taken check_arguments words ≡ Some rows
        → IsSome (first_of (codes "platform") rows) × IsSome (first_of (codes "old") rows) × IsSome (first_of (codes "new") rows) }
    ensures link { (words : List Text) (rows : List Row) → taken link_arguments words ≡ Some rows
        → IsSome (first_of (codes "platform") rows) × IsSome (first_of (codes "release") rows) × IsSome (first_of (codes "client") rows) }
{}
