//! Trees of signatures, and the texts of their parts.
use jc_sig::read::{read_class_sig, read_field_sig, read_method_sig};
use jc_sig::tree::{Argument, ClassSig, ClassType, MethodSig, TypeSig};
use jc_sig::write::{put_class, put_result, put_type_parameters, put_types};
use std::alloc::Global;
use std::process::Abort;

fn field(rt: &impl Abort, alloc: Global, text: &str) -> TypeSig {
    read_field_sig(alloc, text.as_bytes())
        .expect(rt, "memory")
        .expect(rt, "a signature")
}

fn class(rt: &impl Abort, alloc: Global, text: &str) -> ClassSig {
    read_class_sig(alloc, text.as_bytes())
        .expect(rt, "memory")
        .expect(rt, "a signature")
}

fn method(rt: &impl Abort, alloc: Global, text: &str) -> MethodSig {
    read_method_sig(alloc, text.as_bytes())
        .expect(rt, "memory")
        .expect(rt, "a signature")
}

fn is_class(tree: &ClassType, package: &[&str], parts: &[&str]) -> bool {
    if tree.package.len() != package.len() || tree.parts.len() != parts.len() {
        return false;
    }
    for (i, name) in package.iter().enumerate() {
        if tree.package[i].as_bytes() != name.as_bytes() {
            return false;
        }
    }
    for (i, name) in parts.iter().enumerate() {
        if tree.parts[i].name.as_bytes() != name.as_bytes() {
            return false;
        }
    }
    true
}

fn is_variable(tree: &TypeSig, name: &str) -> bool {
    match tree {
        TypeSig::Variable(found) => found.as_bytes() == name.as_bytes(),
        TypeSig::Base(_) => false,
        TypeSig::Array(_) => false,
        TypeSig::Class(_) => false,
    }
}

// `TK;`
fn is_key(argument: &Argument) -> bool {
    match argument {
        Argument::Exact(tree) => is_variable(tree, "K"),
        Argument::Any => false,
        Argument::Upper(_) => false,
        Argument::Lower(_) => false,
    }
}

fn is_any(argument: &Argument) -> bool {
    match argument {
        Argument::Any => true,
        Argument::Exact(_) => false,
        Argument::Upper(_) => false,
        Argument::Lower(_) => false,
    }
}

// `*` alone
fn are_any(arguments: &[Argument]) -> bool {
    match arguments {
        [argument] => is_any(argument),
        _ => false,
    }
}

// `Lp/A<*>.B;`
fn is_member(tree: &TypeSig) -> bool {
    let TypeSig::Class(class) = tree else {
        return false;
    };
    match class.parts.as_slice() {
        [outer, inner] => {
            is_class(class, &["p"], &["A", "B"])
                && are_any(outer.arguments.as_slice())
                && inner.arguments.is_empty()
        }
        _ => false,
    }
}

// `+Lp/A<*>.B;`
fn is_below_member(argument: &Argument) -> bool {
    match argument {
        Argument::Upper(tree) => is_member(tree),
        Argument::Any => false,
        Argument::Exact(_) => false,
        Argument::Lower(_) => false,
    }
}

// `TK;+Lp/A<*>.B;`
fn are_key_and_member(arguments: &[Argument]) -> bool {
    match arguments {
        [key, value] => is_key(key) && is_below_member(value),
        _ => false,
    }
}

fn is_map(tree: &TypeSig) -> bool {
    let TypeSig::Class(class) = tree else {
        return false;
    };
    match class.parts.as_slice() {
        [part] => {
            is_class(class, &["java", "util"], &["Map"])
                && are_key_and_member(part.arguments.as_slice())
        }
        _ => false,
    }
}

#[test]
fn a_class_with_arguments(rt: HostRuntime) {
    let tree = field(&rt, rt.alloc(), "Ljava/util/Map<TK;+Lp/A<*>.B;>;");
    assert!(rt; is_map(&tree));
}

#[test]
fn a_name_behind_the_first_colon_is_the_next_parameter(rt: HostRuntime) {
    let tree = class(&rt, rt.alloc(), "<A:Lx:>Lp/A;");
    assert!(rt; tree.parameters.len() == 2);
    assert!(rt; tree.parameters[0].name.as_bytes() == b"A".as_slice());
    assert!(rt; tree.parameters[1].name.as_bytes() == b"Lx".as_slice());
    for parameter in &tree.parameters {
        assert!(rt; parameter.class_bound.is_none() && parameter.bounds.is_empty());
    }
    assert!(rt; is_class(&tree.superclass, &["p"], &["A"]));
    assert!(rt; tree.interfaces.is_empty());
}

#[test]
fn parts_have_texts(rt: HostRuntime) {
    let tree = method(&rt, rt.alloc(), "<X:Lp/E;>(I[TX;)Lp/A;^TX;");
    let mut text = Vec::new(rt.alloc());
    put_types(&mut text, tree.arguments.as_slice()).expect(&rt, "memory");
    put_result(&mut text, &tree.result).expect(&rt, "memory");
    put_type_parameters(&mut text, tree.parameters.as_slice()).expect(&rt, "memory");
    let tree = class(&rt, rt.alloc(), "Lp/A<*>;");
    put_class(&mut text, &tree.superclass).expect(&rt, "memory");
    assert!(rt; text.as_slice() == b"I[TX;Lp/A;<X:Lp/E;>Lp/A<*>;".as_slice());
}
