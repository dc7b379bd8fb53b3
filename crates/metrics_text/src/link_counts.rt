//! What is counted for a link.

ghost use Rattle.std.specs.Prelude.{◌≡◌};
ghost use Rattle.metrics_text.specs.Samples.{figure_of};

/// What is counted for the link with an interface; 0 is the internal network.
#[derive(Clone, Copy)]
pub struct LinkCounts {
    pub interface: u16,
    /// Datagrams that its receiver numbered.
    pub input: u128,
    /// Packets and answers that its forwarder handed to the socket.
    pub output: u128,
    /// Whether it was closed.
    pub closed: bool,
}

/// What one family tells of each link.
#[derive(Clone, Copy)]
pub(crate) enum Figure {
    Input,
    Output,
    /// 1 where it was closed, else 0.
    Closed,
}

/// What a family tells of a link.
pub(crate) fn figure_of(figure: Figure, link: &LinkCounts) -> u128
    ensures { result ≡ figure_of figure link.now }
{
    match figure {
        Figure::Input => link.input,
        Figure::Output => link.output,
        Figure::Closed => u128::from(link.closed),
    }
}
