//! The printed forms of what is said of some clients, with the lines of a check that explain it.
ghost use Rattle.std.specs.Prelude.{◌≡◌, ◌++◌, [], ◌∷◌, codes, ℕ};
ghost use Rattle.jc_facts.specs.declared.verdict.Collision.{Collision};
ghost use Rattle.jc_answers.specs.UsedJson.{used_json_of};
ghost use Rattle.jc_answers.specs.UsedText.{used_text_of};
ghost use Rattle.jc_answers.specs.UsedWorked.{check, clients, explained, is_kept};
ghost use Rattle.jc_report.specs.Json.{finding_json, collision_json};
ghost use Rattle.jc_report.specs.Text.{line_of_finding, line_of_collision};
ghost use Rattle.jc_used.specs.Lines.{as_finding};

/// A line of the check is printed once, with how many clients it breaks, however often it breaks one of
/// them; a line that explains nothing isn't printed.
pub fn worked_used_text()
    ensures broken { used_text_of clients explained check ≡ codes "client 1 item c/C invokevirtual p/A run()V p/A NoSuchMethodError 2\nclient 1 class c/E VerifyError -\nclient 1 breaks: 2 classes, 5 outcomes, 1 errors before, 2 lost\nclient 2 jcompat: client: name p/A declared\nclient 3 item c/C invokevirtual p/A run()V p/A NoSuchMethodError 2\nclient 3 item c/C invokevirtual p/A run()V p/A NoSuchMethodError 2\nclient 3 item c/C invokevirtual c/D run()V - IllegalAccessError 3\nclient 3 breaks: 1 classes, 3 outcomes, 0 errors before, 3 lost\nused 2 2 H8 p/A run()V invokevirtual - NoSuchMethodError\nused 1 3 Capture p/D run()V invokevirtual - IllegalAccessError\nclients: 3 clients, 2 broken, 1 refused\n" }
    ensures kept { used_text_of (is_kept ∷ []) ([] ∷ []) check ≡ codes "client 1 keeps: 1 classes, 1 outcomes, 0 errors before, 0 lost\nclients: 1 clients, 0 broken, 0 refused\n" }
{}

/// The number of a loss that no line explains is null; the objects of lines are those of `check`, with how
/// many clients each breaks.
pub fn worked_used_json()
    ensures broken { used_json_of clients explained check ≡ codes "{\"clients\":[{\"classes\":2,\"errors\":1,\"lost\":[{\"class\":\"c/C\",\"error\":\"NoSuchMethodError\",\"explained\":2,\"member\":\"run()V\",\"name\":\"p/A\",\"operation\":\"invokevirtual\",\"receiver\":\"p/A\"},{\"class\":\"c/E\",\"error\":\"VerifyError\",\"explained\":null,\"member\":null,\"name\":null,\"operation\":null,\"receiver\":null}],\"number\":1,\"outcomes\":5,\"refusal\":null},{\"classes\":null,\"errors\":null,\"lost\":null,\"number\":2,\"outcomes\":null,\"refusal\":{\"class\":\"p/A\",\"path\":null,\"reason\":\"declared\"}},{\"classes\":1,\"errors\":0,\"lost\":[{\"class\":\"c/C\",\"error\":\"NoSuchMethodError\",\"explained\":2,\"member\":\"run()V\",\"name\":\"p/A\",\"operation\":\"invokevirtual\",\"receiver\":\"p/A\"},{\"class\":\"c/C\",\"error\":\"NoSuchMethodError\",\"explained\":2,\"member\":\"run()V\",\"name\":\"p/A\",\"operation\":\"invokevirtual\",\"receiver\":\"p/A\"},{\"class\":\"c/C\",\"error\":\"IllegalAccessError\",\"explained\":3,\"member\":\"run()V\",\"name\":\"c/D\",\"operation\":\"invokevirtual\",\"receiver\":null}],\"number\":3,\"outcomes\":3,\"refusal\":null}],\"total\":{\"broken\":2,\"clients\":3,\"refused\":1},\"used\":[{\"class\":\"p/A\",\"clients\":2,\"error\":\"NoSuchMethodError\",\"member\":\"run()V\",\"number\":2,\"operation\":\"invokevirtual\",\"rule\":\"H8\",\"seat\":null},{\"class\":\"p/D\",\"clients\":1,\"error\":\"IllegalAccessError\",\"member\":\"run()V\",\"number\":3,\"operation\":\"invokevirtual\",\"rule\":\"Capture\",\"seat\":null}]}\n" }
    ensures kept { used_json_of (is_kept ∷ []) ([] ∷ []) check ≡ codes "{\"clients\":[{\"classes\":1,\"errors\":0,\"lost\":[],\"number\":1,\"outcomes\":1,\"refusal\":null}],\"total\":{\"broken\":0,\"clients\":1,\"refused\":0},\"used\":[]}\n" }
{}

/// A collision that is given as a finding has the line and the object that `check` gives it.
pub fn printed_as_collisions()
    ensures text { (n : ℕ) (c : Collision) → line_of_finding n (as_finding c) ≡ line_of_collision n c }
    ensures json { (n : ℕ) (c : Collision) → finding_json n (as_finding c) ≡ collision_json n c }
{}
