//! The world of real nodes: clients, replicas and wardens over a mail, one event at a time.
//!
//! The nodes stand by their numbers from 1, and what a node does on an event is the move that the definitions make of it.
//! Read `specs/Clients`, `Replicas` and `Wardens`: when the nodes of one kind stand for those of a world; and `Nodes`: when
//! all do. `proofs/Placed` shows that where one node takes its turn the others stand for what they stood for, and
//! `NodesLemmas` that such a turn is the move of the world.
//!
//! Then read `specs/Origin`, what a world is made of; `World`, when its parts stand for a world of the definitions, and when
//! it stands for the events that it took; `Laws`, what holds of each world then. `parts` does what an event does, and asks
//! only what it needs; `world` is whole from call to call, since each world that events lead to is sound
//! (`proofs/SoundWorlds`, by the laws of frames and views). `machine` makes it a machine that is driven by links
//! (`specs/MachineLaws`; `NodeJobs` tells which jobs are pending where clients stand for those of a world).
#![tactic(auto)]

mod beginning;
mod clients;
mod events;
pub mod laws;
mod loading;
mod machine;
mod nodes;
mod origin;
mod parts;
mod replicas;
mod setup;
mod sound;
mod warden;
mod wardens;
mod world;

pub use clients::Clients;
pub use loading::kit;
pub use nodes::Nodes;
pub use origin::Origin;
pub use replicas::Replicas;
pub use wardens::Wardens;
pub use world::World;
