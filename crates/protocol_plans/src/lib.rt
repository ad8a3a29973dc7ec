//! The programs of the language as the protocol takes them: what a program does on answers is its replay. And the limits
//! of the scripts that plans are made of.
//!
//! Read `specs/Scripted` (programs as walks, a script, its plan), `AlwaysOfScripts` (how laws speak of scripts),
//! `SerialOutcome` (what it means that executions are a serial run, and a base its map), `Limits` and `Laws`. That programs
//! walk follows from the laws of their replays, and a script's plan is made of them (`proofs/PlansHavePrograms`).
#![tactic(auto)]

ghost use Rattle.protocol_plans.specs.Laws.{ProgramsWalk, PlansHavePrograms, ScriptsMeetPremises};

/// A program asks for its reads one after another, and more answers only add writes.
pub fn programs_walk()
    ensures { ProgramsWalk }
{}

/// So does each transaction of a plan that is made of programs.
pub fn plans_have_programs()
    ensures { PlansHavePrograms }
{}

/// A script within its limits has a plan with a replica, whose transactions are programs: what the protocol's laws ask.
pub fn scripts_meet_premises()
    ensures { ScriptsMeetPremises }
{}
