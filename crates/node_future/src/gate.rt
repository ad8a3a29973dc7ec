/// Is told of each segment, just before and just after it is run.
pub trait Gate: Drop {
    fn before(&self, client: u32);

    fn after(&self, client: u32);
}

/// A gate that does nothing.
#[derive(Clone, Copy, Debug)]
pub struct OpenGate;

impl Gate for OpenGate {
    fn before(&self, _client: u32) {}

    fn after(&self, _client: u32) {}
}

impl<G: Gate> Gate for &G {
    fn before(&self, client: u32) {
        (**self).before(client);
    }

    fn after(&self, client: u32) {
        (**self).after(client);
    }
}
