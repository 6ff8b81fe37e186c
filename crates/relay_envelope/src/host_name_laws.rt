//! Laws of the names of hosts, whoever reads them.
ghost use Rattle.relay_envelope.specs.HostName.{HostNameIsHostWord, HostWordHasNoCrlf};

/// The name of a host is a word of HELO.
pub fn host_name_is_host_word()
    ensures { HostNameIsHostWord }
{}

/// No CR LF is in a word of HELO.
pub fn host_word_has_no_crlf()
    ensures { HostWordHasNoCrlf }
{}
