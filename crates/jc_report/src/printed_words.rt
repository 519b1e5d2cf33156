//! The printed words of rules, acts, errors, releases, verdicts and warnings.
ghost use Rattle.std.specs.Prelude.{◌≡◌, IfOk, string_bytes};
ghost use Rattle.jc_report.specs.Text.{rule_name, word_of_act, name_of_error, word_of_side, verdict_word as word_of_verdict};
ghost use Rattle.jc_report.specs.WarnForms.{word_of_kind};

use jc_facts::act::Act;
use jc_facts::finding::Finding;
use jc_facts::link_error::LinkError;
use jc_facts::rule_numbers::{CAPTURE_ADDED, CONSTANT_ADDED, FINAL_ADDED};
use jc_facts::warning::WarnKind;
use std::alloc::{AllocError, Global};

/// The name of a rule: `Constant`, `Capture` and `Final` for those of collisions, and `H` with the
/// number for any other.
///
/// # Errors
///
/// `AllocError` where memory runs out.
pub fn rule_text(alloc: Global, rule: u8) -> Result<String, AllocError>
    ensures { IfOk result (λ text. string_bytes text ≡ rule_name rule) }
{
    match rule {
        CONSTANT_ADDED => String::from_str(alloc, "Constant"),
        CAPTURE_ADDED => String::from_str(alloc, "Capture"),
        FINAL_ADDED => String::from_str(alloc, "Final"),
        _ => format!(in alloc; "H{rule}"),
    }
}

/// The word of an act.
pub fn act_word(act: Act) -> &'static str
    ensures { result.now ≡ word_of_act act }
{
    match act {
        Act::ClassRef => "class",
        Act::Extend => "extend",
        Act::Implement => "implement",
        Act::Assignment => "assign",
        Act::NewObject => "new",
        Act::InitSuper => "init",
        Act::Override => "override",
        Act::GetStatic => "getstatic",
        Act::PutStatic => "putstatic",
        Act::GetField => "getfield",
        Act::PutField => "putfield",
        Act::InvokeVirtual => "invokevirtual",
        Act::InvokeStatic => "invokestatic",
        Act::InvokeInterface => "invokeinterface",
        Act::InvokeStaticInterface => "invokestatic-interface",
        Act::InvokeSpecial => "invokespecial",
        Act::InvokeSpecialInterface => "invokespecial-interface",
        Act::Inherit => "inherit",
    }
}

/// The name of an error.
pub fn error_name(error: LinkError) -> &'static str
    ensures { result.now ≡ name_of_error error }
{
    match error {
        LinkError::NoClassDefFoundError => "NoClassDefFoundError",
        LinkError::ClassCircularityError => "ClassCircularityError",
        LinkError::IllegalAccessError => "IllegalAccessError",
        LinkError::IncompatibleClassChangeError => "IncompatibleClassChangeError",
        LinkError::NoSuchFieldError => "NoSuchFieldError",
        LinkError::NoSuchMethodError => "NoSuchMethodError",
        LinkError::InstantiationError => "InstantiationError",
        LinkError::VerifyError => "VerifyError",
    }
}

/// The word of the old or the new release.
pub fn side_word(old: bool) -> &'static str
    ensures { result.now ≡ word_of_side old }
{
    if old { "old" } else { "new" }
}

/// The word of a verdict with these findings.
pub fn verdict_word(findings: &[Finding]) -> &'static str
    ensures { result.now ≡ word_of_verdict findings.now }
{
    match findings {
        [] => "compatible",
        [_, ..] => "incompatible",
    }
}

/// The word of a kind of warning.
pub fn warn_word(kind: WarnKind) -> &'static str
    ensures { result.now ≡ word_of_kind kind }
{
    match kind {
        WarnKind::Lost => "lost",
        WarnKind::Abstract => "abstract",
        WarnKind::Defaults => "defaults",
    }
}
