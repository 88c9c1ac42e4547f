//! How sure an answer is.
ghost use Rattle.std.specs.Prelude.{◌≡◌};
ghost use Rattle.nts_certainty.specs.Certainties.{both, either, cause_of_both, cause_of_either, jank_of_both, jank_of_either, ambiguous, overflowing};

/// Why an answer is not known.
#[derive(Clone, Copy, PartialEq, Eq, Debug)]
pub enum MaybeCause {
    /// More must be known of the goal's variables.
    Ambiguity,
    /// A limit was met.
    Overflow {
        /// A greater recursion limit may help.
        suggest_increasing_limit: bool,
        /// What was found of the variables is kept.
        keep_constraints: bool,
    },
}

/// Whether the answer may become an error where a hidden type stays rigid.
#[derive(Clone, Copy, PartialEq, Eq, Debug)]
pub enum OpaqueTypesJank {
    AllGood,
    ErrorIfRigidSelfTy,
}

/// What is known of an answer that is not known.
#[derive(Clone, Copy, PartialEq, Eq, Debug)]
pub struct MaybeInfo {
    pub cause: MaybeCause,
    pub opaque_types_jank: OpaqueTypesJank,
}

/// How sure it is that a goal holds.
#[derive(Clone, Copy, PartialEq, Eq, Debug)]
pub enum Certainty {
    Yes,
    Maybe(MaybeInfo),
}

impl MaybeCause {
    fn and(self, other: MaybeCause) -> MaybeCause
        ensures { result ≡ cause_of_both self other }
    {
        match (self, other) {
            (MaybeCause::Ambiguity, cause) => cause,
            (cause, MaybeCause::Ambiguity) => cause,
            (
                MaybeCause::Overflow {
                    suggest_increasing_limit: a,
                    keep_constraints: b,
                },
                MaybeCause::Overflow {
                    suggest_increasing_limit: c,
                    keep_constraints: d,
                },
            ) => MaybeCause::Overflow {
                suggest_increasing_limit: a && c,
                keep_constraints: b && d,
            },
        }
    }

    fn or(self, other: MaybeCause) -> MaybeCause
        ensures { result ≡ cause_of_either self other }
    {
        match (self, other) {
            (MaybeCause::Ambiguity, MaybeCause::Ambiguity) => MaybeCause::Ambiguity,
            (
                MaybeCause::Ambiguity,
                MaybeCause::Overflow {
                    suggest_increasing_limit,
                    ..
                },
            ) => {
                MaybeCause::Overflow {
                    suggest_increasing_limit,
                    keep_constraints: true,
                }
            }
            (
                MaybeCause::Overflow {
                    suggest_increasing_limit,
                    ..
                },
                MaybeCause::Ambiguity,
            ) => {
                MaybeCause::Overflow {
                    suggest_increasing_limit,
                    keep_constraints: true,
                }
            }
            (
                MaybeCause::Overflow {
                    suggest_increasing_limit: a,
                    keep_constraints: b,
                },
                MaybeCause::Overflow {
                    suggest_increasing_limit: c,
                    keep_constraints: d,
                },
            ) => MaybeCause::Overflow {
                suggest_increasing_limit: a || c,
                keep_constraints: b || d,
            },
        }
    }
}

impl OpaqueTypesJank {
    fn and(self, other: OpaqueTypesJank) -> OpaqueTypesJank
        ensures { result ≡ jank_of_both self other }
    {
        match self {
            OpaqueTypesJank::AllGood => other,
            OpaqueTypesJank::ErrorIfRigidSelfTy => OpaqueTypesJank::ErrorIfRigidSelfTy,
        }
    }

    fn or(self, other: OpaqueTypesJank) -> OpaqueTypesJank
        ensures { result ≡ jank_of_either self other }
    {
        match self {
            OpaqueTypesJank::AllGood => OpaqueTypesJank::AllGood,
            OpaqueTypesJank::ErrorIfRigidSelfTy => other,
        }
    }
}

impl Certainty {
    /// More must be known of the goal's variables.
    pub const AMBIGUOUS: Certainty = Certainty::Maybe(MaybeInfo {
        cause: MaybeCause::Ambiguity,
        opaque_types_jank: OpaqueTypesJank::AllGood,
    });

    /// A limit was met; what was found is not kept.
    pub fn overflow(suggest_increasing_limit: bool) -> Certainty
        ensures { result ≡ overflowing suggest_increasing_limit }
    {
        Certainty::Maybe(MaybeInfo {
            cause: MaybeCause::Overflow {
                suggest_increasing_limit,
                keep_constraints: false,
            },
            opaque_types_jank: OpaqueTypesJank::AllGood,
        })
    }

    /// How sure it is that both hold. An overflow wins over an ambiguity.
    pub fn and(self, other: Certainty) -> Certainty
        ensures { result ≡ both self other }
    {
        match (self, other) {
            (Certainty::Yes, certainty) => certainty,
            (certainty, Certainty::Yes) => certainty,
            (Certainty::Maybe(a), Certainty::Maybe(b)) => Certainty::Maybe(MaybeInfo {
                cause: a.cause.and(b.cause),
                opaque_types_jank: a.opaque_types_jank.and(b.opaque_types_jank),
            }),
        }
    }

    /// How sure it is that one of them holds.
    pub fn or(self, other: Certainty) -> Certainty
        ensures { result ≡ either self other }
    {
        match (self, other) {
            (Certainty::Yes, _) => Certainty::Yes,
            (_, Certainty::Yes) => Certainty::Yes,
            (Certainty::Maybe(a), Certainty::Maybe(b)) => Certainty::Maybe(MaybeInfo {
                cause: a.cause.or(b.cause),
                opaque_types_jank: a.opaque_types_jank.or(b.opaque_types_jank),
            }),
        }
    }
}
