ghost use Rattle.std.specs.Prelude.{◌≡◌};
ghost use Rattle.std.specs.Ordering.{is_lt};
ghost use Rattle.morty_base.specs.declared.names.Version.{Version as VersionValue};
ghost use Rattle.morty_base.specs.declared.names.Exec.{Exec as ExecValue};
ghost use Rattle.morty_base.specs.declared.names.Wid.{Wid as WidValue};
ghost use Rattle.morty_base.specs.declared.names.Key.{Key as KeyValue};
ghost use Rattle.morty_base.specs.declared.names.NodeId.{NodeId as NodeValue};
ghost use Rattle.morty_base.specs.Names.{before, same_version, exec_before, same_exec, wid_before, same_wid, key_before, same_key, node_before, same_node};
ghost use Rattle.morty_base.specs.Orders.{IsTotalOrder, TellsEqual};

use crate::names::{Exec, Key, NodeId, Version, Wid};

/// Versions are totally ordered by `ts` and then `client`, and `<` and `==` tell that order.
pub fn version_order()
    ensures order { IsTotalOrder before }
    ensures same { TellsEqual same_version }
    ensures less { (a b : VersionValue) → is_lt (⟦<Version as Ord>⟧.cmp a b) ≡ before a b }
    ensures equal { (a b : VersionValue) → ⟦<Version as PartialEq>⟧.eq a b ≡ same_version a b }
{}

/// Executions are totally ordered by version and then number, and `<` and `==` tell that order.
pub fn exec_order()
    ensures order { IsTotalOrder exec_before }
    ensures same { TellsEqual same_exec }
    ensures less { (a b : ExecValue) → is_lt (⟦<Exec as Ord>⟧.cmp a b) ≡ exec_before a b }
    ensures equal { (a b : ExecValue) → ⟦<Exec as PartialEq>⟧.eq a b ≡ same_exec a b }
{}

/// Write names are totally ordered by version, execution number and place, and `<` and `==` tell that order.
pub fn wid_order()
    ensures order { IsTotalOrder wid_before }
    ensures same { TellsEqual same_wid }
    ensures less { (a b : WidValue) → is_lt (⟦<Wid as Ord>⟧.cmp a b) ≡ wid_before a b }
    ensures equal { (a b : WidValue) → ⟦<Wid as PartialEq>⟧.eq a b ≡ same_wid a b }
{}

/// Keys are totally ordered by table and then index, and `<` and `==` tell that order.
pub fn key_order()
    ensures order { IsTotalOrder key_before }
    ensures same { TellsEqual same_key }
    ensures less { (a b : KeyValue) → is_lt (⟦<Key as Ord>⟧.cmp a b) ≡ key_before a b }
    ensures equal { (a b : KeyValue) → ⟦<Key as PartialEq>⟧.eq a b ≡ same_key a b }
{}

/// Nodes are totally ordered, clients before replicas before wardens, and `<` and `==` tell that order.
pub fn node_order()
    ensures order { IsTotalOrder node_before }
    ensures same { TellsEqual same_node }
    ensures less { (a b : NodeValue) → is_lt (⟦<NodeId as Ord>⟧.cmp a b) ≡ node_before a b }
    ensures equal { (a b : NodeValue) → ⟦<NodeId as PartialEq>⟧.eq a b ≡ same_node a b }
{}
