//! What lines ask for, and the numbers of their names. Which lines are refused, and why, is told by `examples/cases`.

use nts_model::{Sort, UintTy, Variance};
use nts_text::*;
use std::alloc::Global;
use std::process::Abort;

/// What the lines before declared, and what the last line named.
#[derive(Drop)]
struct Lines {
    names: NameTable,
    scope: Scope,
}

impl Lines {
    fn new(alloc: Global) -> Self {
        let names = NameTable::new(alloc);
        let scope = Scope::new(alloc);
        Self { names, scope }
    }

    /// What a line asks for that is taken.
    fn read(&mut self, rt: &impl Abort, alloc: Global, line: &[u8]) -> Option<Command> {
        let read = read_command(alloc, line, &mut self.names, &mut self.scope);
        read.expect(rt, "a line that is taken")
    }

    /// What the last of these lines asks for.
    fn read_all(&mut self, rt: &impl Abort, alloc: Global, lines: &[&[u8]]) -> Command {
        let mut last = None;
        for line in lines {
            last = self.read(rt, alloc, line);
        }
        last.expect(rt, "a command")
    }
}

/// What the last of these lines asks for. A function that owns names takes long to prove, so the tests leave it to this one.
fn last_command(rt: &impl Abort, alloc: Global, lines: &[&[u8]]) -> Command {
    Lines::new(alloc).read_all(rt, alloc, lines)
}

/// Sees that a command asks a goal of these nodes, in parts.
fn see_goal(rt: &impl Abort, command: &Command, parts: &[&[Resolved]]) {
    match command {
        Command::Goal(nodes) => see_nodes(rt, nodes, parts),
        _ => panic!(rt; "no goal"),
    }
}

/// Sees that a command states a clause of a head and a body of these nodes, the body in parts.
fn see_clause(rt: &impl Abort, command: &Command, wanted: &[Resolved], parts: &[&[Resolved]]) {
    match command {
        Command::Impl { head, body } => {
            assert!(rt; head.as_slice() == wanted);
            see_nodes(rt, body, parts);
        }
        _ => panic!(rt; "no clause"),
    }
}

/// Sees that a command states what an alias normalizes to, by these nodes, and under these conditions.
fn see_norm(rt: &impl Abort, command: &Command, wanted: &[Resolved], parts: &[&[Resolved]]) {
    match command {
        Command::Norm { head, body } => {
            assert!(rt; head.as_slice() == wanted);
            see_nodes(rt, body, parts);
        }
        _ => panic!(rt; "no clause of an alias"),
    }
}

fn see_nodes(rt: &impl Abort, nodes: &[Resolved], parts: &[&[Resolved]]) {
    let mut seen = 0usize;
    for part in parts {
        let end = seen.saturating_add(part.len());
        assert!(rt; nodes.get(seen..end) == Some(*part));
        seen = end;
    }
    assert_eq!(rt; seen, nodes.len());
}

/// A type constructor, by its number and how many arguments it takes.
fn ctor(number: usize, arguments: usize) -> Resolved {
    Resolved::Ctor { number, arguments }
}

/// A trait, likewise.
fn trait_of(number: usize, arguments: usize) -> Resolved {
    Resolved::Trait { number, arguments }
}

#[test]
fn numbers_names(rt: HostRuntime) {
    let lines: [&[u8]; 5] = [
        b"trait S(type)",
        b"type V(type)",
        b"type Ref(region, type)",
        b"trait T(type, type)",
        b"goal T(Ref('?r, V(?y)), Ref('?r, V(!B)))",
    ];
    let region = Resolved::RegionVariable(0);
    let first = [ctor(1, 2), region, ctor(0, 1), Resolved::TypeVariable(0)];
    let second = [ctor(1, 2), region, ctor(0, 1), Resolved::TypeParam(0)];
    let command = last_command(&rt, rt.alloc(), &lines);
    see_goal(&rt, &command, &[&[trait_of(1, 2)], &first, &second]);
}

/// What a binder binds has its place in the list as its number, whatever its sort.
#[test]
fn numbers_bound_names(rt: HostRuntime) {
    let lines: [&[u8]; 3] = [
        b"trait T(type, type)",
        b"type Ref(region, type)",
        b"goal for<'a, P, 'b> T(Ref('b, P), Ref('c, P))",
    ];
    let region = Resolved::Binds(Sort::Region);
    let binder = [region, Resolved::Binds(Sort::Ty), region];
    let first = [ctor(0, 2), Resolved::BoundRegion(2), Resolved::BoundType(1)];
    let second = [ctor(0, 2), Resolved::RegionParam(0), Resolved::BoundType(1)];
    let command = last_command(&rt, rt.alloc(), &lines);
    see_goal(
        &rt,
        &command,
        &[&binder, &[trait_of(0, 2)], &first, &second],
    );
}

/// Each predicate of a clause has names of its own.
#[test]
fn binds_in_each_predicate(rt: HostRuntime) {
    let lines: [&[u8]; 2] = [
        b"trait S(type)",
        b"impl S(u8) <- for<Q, P> S(P), S(u16), for<P> S(P)",
    ];
    let holds = trait_of(0, 1);
    let binds = Resolved::Binds(Sort::Ty);
    let head = [holds, Resolved::Uint(UintTy::U8)];
    let first = [binds, binds, holds, Resolved::BoundType(1)];
    let second = [holds, Resolved::Uint(UintTy::U16)];
    let third = [binds, holds, Resolved::BoundType(0)];
    let command = last_command(&rt, rt.alloc(), &lines);
    see_clause(&rt, &command, &head, &[&first, &second, &third]);
}

/// A colon stands as a node before what is on its sides, and behind its predicate's binder.
#[test]
fn reads_what_outlives(rt: HostRuntime) {
    let lines: [&[u8]; 2] = [b"type Ref(region, type)", b"goal for<'a> Ref('a, ?x): 'b"];
    let head = [Resolved::Binds(Sort::Region), Resolved::TypeOutlives];
    let variable = Resolved::TypeVariable(0);
    let left = [ctor(0, 2), Resolved::BoundRegion(0), variable];
    let command = last_command(&rt, rt.alloc(), &lines);
    see_goal(&rt, &command, &[&head, &left, &[Resolved::RegionParam(0)]]);
}

/// Predicates of both kinds stand behind one another.
#[test]
fn reads_conditions_that_outlive(rt: HostRuntime) {
    let lines: [&[u8]; 3] = [
        b"trait S(type)",
        b"type Ref(region, type)",
        b"impl S(Ref('?a, ?x)) <- ?x: '?a, S(?x), '?a: 'static",
    ];
    let region = Resolved::RegionVariable(0);
    let variable = Resolved::TypeVariable(0);
    let head = [trait_of(0, 1), ctor(0, 2), region, variable];
    let first = [Resolved::TypeOutlives, variable, region];
    let second = [trait_of(0, 1), variable];
    let third = [Resolved::RegionOutlives, region, Resolved::Static];
    let command = last_command(&rt, rt.alloc(), &lines);
    see_clause(&rt, &command, &head, &[&first, &second, &third]);
}

/// What an alias normalizes to stands behind its arguments. Elsewhere an alias is a type.
#[test]
fn reads_what_aliases_normalize_to(rt: HostRuntime) {
    let lines: [&[u8]; 5] = [
        b"alias Target",
        b"trait S(type)",
        b"type V(type)",
        b"alias Item(type)",
        b"norm Item(V(?x)) = Item(?x) <- S(Target)",
    ];
    let of = Resolved::Normalizes {
        number: 1,
        arguments: 1,
    };
    let item = Resolved::Alias {
        number: 1,
        arguments: 1,
    };
    let target = Resolved::Alias {
        number: 0,
        arguments: 0,
    };
    let variable = Resolved::TypeVariable(0);
    let head = [of, ctor(0, 1), variable, item, variable];
    let command = last_command(&rt, rt.alloc(), &lines);
    see_norm(&rt, &command, &head, &[&[trait_of(0, 1), target]]);
}

/// Adds so many bytes, or words.
fn append(rt: &impl Abort, line: &mut Vec<u8>, count: usize, word: &[u8]) {
    for _ in 0..count {
        line.extend_from_slice(word).expect(rt, "memory");
    }
}

/// A line that asks for a type below this many constructors.
fn deep_line(rt: &impl Abort, line: &mut Vec<u8>, depth: usize) {
    append(rt, line, 1, b"goal T(");
    append(rt, line, depth, b"V(");
    append(rt, line, 1, b"u8)");
    append(rt, line, depth, b")");
}

fn see_deep(rt: &impl Abort, command: &Command, depth: usize) {
    match command {
        Command::Goal(nodes) => {
            assert!(rt; nodes.len() == depth && nodes.last() == Some(&Resolved::Uint(UintTy::U8)));
        }
        _ => panic!(rt; "no goal"),
    }
}

#[test]
fn nests_deeply(rt: HostRuntime) {
    let mut line = Vec::new(rt.alloc());
    deep_line(&rt, &mut line, 100_000);
    let lines: [&[u8]; 3] = [b"trait T(type)", b"type V(type)", &line];
    see_deep(&rt, &last_command(&rt, rt.alloc(), &lines), 100_002);
}

#[test]
fn ends_lines(rt: HostRuntime) {
    let mut reader = b"one\r\n\r\r\n\ntwo\r".as_slice();
    let mut line = Vec::new(rt.alloc());
    for want in [b"one".as_slice(), b"\r", b"", b"two"] {
        assert!(rt; next_line(&mut reader, &mut line) == Ok(true));
        assert!(rt; line.as_slice() == want);
    }
    assert!(rt; next_line(&mut reader, &mut line) == Ok(false));
}

fn see_shown(rt: &impl Abort, alloc: Global, refusal: Refusal, words: &str) {
    let shown = format!(in alloc; "{refusal}").expect(rt, "memory");
    assert!(rt; shown.as_str() == words);
}

#[test]
fn shows_refusals(rt: HostRuntime) {
    for (refusal, words) in [
        (Refusal::UnknownCommand, "unknown command"),
        (Refusal::Syntax, "syntax"),
        (Refusal::NumberOutOfRange, "number out of range"),
        (Refusal::UnknownName, "unknown name"),
        (Refusal::NameDeclaredTwice, "name declared twice"),
        (Refusal::WrongArguments, "wrong arguments"),
        (Refusal::AliasIsRigid, "alias is rigid"),
        (Refusal::ParameterInAClause, "parameter in a clause"),
        (
            Refusal::VariableInAnEnvironment,
            "variable in an environment",
        ),
    ] {
        see_shown(&rt, rt.alloc(), refusal, words);
    }
}

/// Sees that a command declares the type of this number, with these parameters.
fn see_type(rt: &impl Abort, command: &Command, wanted: usize, of: &[Param]) {
    match command {
        Command::Type { number, params } => {
            assert!(rt; *number == wanted && params.as_slice() == of);
        }
        _ => panic!(rt; "no type"),
    }
}

#[test]
fn numbers_types(rt: HostRuntime) {
    let lines: [&[u8]; 2] = [b"type Fn(-type, =region)", b"type Leaf"];
    let of = [
        Param {
            sort: Sort::Ty,
            variance: Variance::Contravariant,
        },
        Param {
            sort: Sort::Region,
            variance: Variance::Invariant,
        },
    ];
    let first = last_command(&rt, rt.alloc(), &lines[..1]);
    see_type(&rt, &first, 0, &of);
    let second = last_command(&rt, rt.alloc(), &lines);
    see_type(&rt, &second, 1, &[]);
}

/// Sees that a command declares the trait of this number, coinductive or not.
fn see_trait(rt: &impl Abort, command: &Command, wanted: usize, is: bool) {
    match command {
        Command::Trait {
            number,
            coinductive,
        } => {
            assert!(rt; *number == wanted && *coinductive == is);
        }
        _ => panic!(rt; "no trait"),
    }
}

#[test]
fn numbers_traits(rt: HostRuntime) {
    let lines: [&[u8]; 2] = [b"trait S(type, region)", b"trait T(region) coinductive"];
    let first = last_command(&rt, rt.alloc(), &lines[..1]);
    see_trait(&rt, &first, 0, false);
    let second = last_command(&rt, rt.alloc(), &lines);
    see_trait(&rt, &second, 1, true);
}

/// Sees that a command declares the alias of this number, rigid or not.
fn see_alias(rt: &impl Abort, command: &Command, wanted: usize, is: bool) {
    match command {
        Command::Alias { number, is_rigid } => {
            assert!(rt; *number == wanted && *is_rigid == is);
        }
        _ => panic!(rt; "no alias"),
    }
}

#[test]
fn numbers_aliases(rt: HostRuntime) {
    let lines: [&[u8]; 3] = [b"alias Item(type)", b"alias Target", b"alias T rigid"];
    let first = last_command(&rt, rt.alloc(), &lines[..1]);
    see_alias(&rt, &first, 0, false);
    let second = last_command(&rt, rt.alloc(), &lines[..2]);
    see_alias(&rt, &second, 1, false);
    let third = last_command(&rt, rt.alloc(), &lines);
    see_alias(&rt, &third, 2, true);
}

fn see_signature(rt: &impl Abort, seen: &Signature, name: &[u8], sorts: &[Sort]) {
    assert!(rt; seen.name.as_slice() == name && seen.sorts.as_slice() == sorts);
}

fn see_signatures(rt: &impl Abort, names: &NameTable) {
    let ([function], [first, second]) = (names.types.as_slice(), names.traits.as_slice()) else {
        panic!(rt; "not one type and two traits are listed");
    };
    see_signature(rt, function, b"Fn", &[Sort::Ty, Sort::Region, Sort::Ty]);
    see_signature(rt, first, b"S", &[Sort::Ty, Sort::Region]);
    see_signature(rt, second, b"T", &[Sort::Region]);
}

fn see_listed(rt: &impl Abort, alloc: Global, names: &mut Lines) {
    let lines: [&[u8]; 3] = [
        b"type Fn(-type, =region, type)",
        b"trait S(type, region)",
        b"trait T(region) coinductive",
    ];
    names.read_all(rt, alloc, &lines);
    see_signatures(rt, &names.names);
}

#[test]
fn lists_names(rt: HostRuntime) {
    let mut names = Lines::new(rt.alloc());
    see_listed(&rt, rt.alloc(), &mut names);
}
