//! The printed forms of some verdicts, warnings, notes on signatures, dropped interfaces, lines on calls and outcomes.
ghost use Rattle.std.specs.Prelude.{◌≡◌, ◌++◌, [], ◌∷◌, Some, None, true, false, codes, ℕ};
ghost use Rattle.jc_facts.specs.declared.verdict.Verdict.{Verdict};
ghost use Rattle.jc_report.specs.Json.{json_of};
ghost use Rattle.jc_report.specs.WarnForms.{warn_bytes};
ghost use Rattle.jc_report.specs.SigForms.{sig_bytes};
ghost use Rattle.jc_report.specs.DroppedForms.{dropped_bytes};
ghost use Rattle.jc_report.specs.CallForms.{calls_bytes};
ghost use Rattle.jc_report.specs.Listing.{json_line};
ghost use Rattle.jc_report.specs.OutcomeJson.{outcome_json};
ghost use Rattle.jc_report.specs.Worked.{capture, empty, mixed, body_lost, default_added, parameters_changed, result_changed, unread, no_longer_there, no_longer_named, reference_lost, access_added, join_lost, constants_added, class_unloaded, call_unlinked, call_of_initializer, value_assigned};

/// Keys stand in byte order, what isn't there is null, and a backslash of a printed form is escaped.
pub fn worked_json()
    ensures capture { json_of capture ≡ codes "{\"collisions\":[{\"class\":\"p/A\",\"error\":\"IllegalAccessError\",\"member\":\"run()V\",\"number\":1,\"operation\":\"invokevirtual\",\"rule\":\"Capture\",\"seat\":null}],\"findings\":[],\"notes\":[],\"verdict\":\"compatible\"}\n" }
    ensures empty { json_of empty ≡ codes "{\"collisions\":[],\"findings\":[],\"notes\":[],\"verdict\":\"compatible\"}\n" }
    ensures mixed { json_of mixed ≡ codes "{\"collisions\":[],\"findings\":[{\"class\":\"p/\\\\\\\\\\\\xe9\",\"error\":\"NoClassDefFoundError\",\"member\":null,\"number\":1,\"operation\":\"class\",\"rule\":\"H1\",\"seat\":null},{\"class\":\"p/D\",\"error\":\"NoSuchFieldError\",\"member\":\"f:I\",\"number\":2,\"operation\":\"getstatic\",\"rule\":\"H7\",\"seat\":\"p/C\"}],\"notes\":[{\"class\":\"p/B\",\"detail\":\"VerifyError\",\"kind\":\"unloadable\",\"member\":null,\"side\":\"old\"},{\"class\":\"p/A\",\"detail\":null,\"kind\":\"constant\",\"member\":\"f:I\",\"side\":null}],\"verdict\":\"incompatible\"}\n" }
{}

/// A kind is one word in lower case; what isn't asked for has no bytes.
pub fn worked_warnings()
    ensures text { warn_bytes false (Some (body_lost ∷ default_added ∷ [])) ≡ codes "warning p/A k()V lost\nwarning p/I k()V defaults\n" }
    ensures json { warn_bytes true (Some (default_added ∷ [])) ≡ codes "{\"warnings\":[{\"class\":\"p/I\",\"kind\":\"defaults\",\"member\":\"k()V\"}]}\n" }
    ensures none { warn_bytes true (Some []) ≡ codes "{\"warnings\":[]}\n" }
    ensures unasked { warn_bytes true None ≡ [] }
{}

/// The member of the class itself is `-`, or null in JSON; a change is one word in lower case.
pub fn worked_signatures()
    ensures text { sig_bytes false (Some (parameters_changed ∷ result_changed ∷ unread ∷ [])) ≡ codes "note signature p/A - parameters\nnote signature p/A get()Ljava/lang/Object; result\nnote signature p/A - unread\n" }
    ensures class { sig_bytes true (Some (parameters_changed ∷ [])) ≡ codes "{\"signatures\":[{\"change\":\"parameters\",\"class\":\"p/A\",\"member\":null}]}\n" }
    ensures none { sig_bytes true (Some []) ≡ codes "{\"signatures\":[]}\n" }
    ensures member { sig_bytes true (Some (result_changed ∷ [])) ≡ codes "{\"signatures\":[{\"change\":\"result\",\"class\":\"p/A\",\"member\":\"get()Ljava/lang/Object;\"}]}\n" }
{}

/// A name is printed in a line, and its backslashes once more escaped in JSON.
pub fn worked_dropped()
    ensures text { dropped_bytes false (Some (no_longer_there ∷ no_longer_named ∷ [])) ≡ codes "dropped p/A p/I\ndropped p/\\\\\\xe9 p/M\n" }
    ensures json { dropped_bytes true (Some (no_longer_there ∷ no_longer_named ∷ [])) ≡ codes "{\"dropped\":[{\"class\":\"p/A\",\"interface\":\"p/I\"},{\"class\":\"p/\\\\\\\\\\\\xe9\",\"interface\":\"p/M\"}]}\n" }
    ensures none { dropped_bytes true (Some []) ≡ codes "{\"dropped\":[]}\n" }
{}

/// A superclass stands in the place of the member; the member of a line of a class is `-`, and in JSON null
/// is what isn't there. A kind is one word in lower case.
pub fn worked_calls()
    ensures text { calls_bytes false (Some (reference_lost ∷ access_added ∷ join_lost ∷ constants_added ∷ [])) ≡ codes "call p/A run()V reference\ncall p/\\\\\\xe9 run()V access\ncall p/B p/\\\\\\xe9 joined\ncall p/E - constants\n" }
    ensures json { calls_bytes true (Some (access_added ∷ join_lost ∷ constants_added ∷ [])) ≡ codes "{\"calls\":[{\"class\":\"p/\\\\\\\\\\\\xe9\",\"kind\":\"access\",\"member\":\"run()V\",\"target\":null},{\"class\":\"p/B\",\"kind\":\"joined\",\"member\":null,\"target\":\"p/\\\\\\\\\\\\xe9\"},{\"class\":\"p/E\",\"kind\":\"constants\",\"member\":null,\"target\":null}]}\n" }
    ensures none { calls_bytes true (Some []) ≡ codes "{\"calls\":[]}\n" }
    ensures unasked { calls_bytes true None ≡ [] }
{}

/// Of a class that doesn't load all but its name and the error is null, and the error is where an outcome
/// is Ok. An assignment has the type of the value as name and the type it is used as as member.
pub fn worked_outcomes()
    ensures class { json_line (outcome_json class_unloaded) ≡ codes "{\"class\":\"c/C\",\"error\":\"IncompatibleClassChangeError\",\"member\":null,\"name\":null,\"operation\":null,\"receiver\":null}\n" }
    ensures call { json_line (outcome_json call_unlinked) ≡ codes "{\"class\":\"c/C\",\"error\":\"NoSuchMethodError\",\"member\":\"run()V\",\"name\":\"p/A\",\"operation\":\"invokevirtual\",\"receiver\":\"p/B\"}\n" }
    ensures initializer { json_line (outcome_json call_of_initializer) ≡ codes "{\"class\":\"c/C\",\"error\":null,\"member\":\"<init>(I)V\",\"name\":\"p/A\",\"operation\":\"new\",\"receiver\":null}\n" }
    ensures assignment { json_line (outcome_json value_assigned) ≡ codes "{\"class\":\"c/C\",\"error\":\"VerifyError\",\"member\":\"p/A\",\"name\":\"p/B\",\"operation\":\"assign\",\"receiver\":null}\n" }
{}
