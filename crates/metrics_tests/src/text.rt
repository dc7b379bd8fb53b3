//! The text of two links' counts, as the exposition format has it.

use metrics_text::{LinkCounts, push_metrics};
use process_packet::{CAUSES, Totals};
use std::process::Abort;
use std::test::*;

const TEXT: &str =
    "# HELP router_input_pkts_total Datagrams that a link's receiver took from its socket.\n\
    # TYPE router_input_pkts_total counter\n\
    router_input_pkts_total{interface=\"0\"} 7\n\
    router_input_pkts_total{interface=\"65535\"} 340282366920938463463374607431768211455\n\
    # HELP router_output_pkts_total Packets and answers that a link's forwarder handed to its socket.\n\
    # TYPE router_output_pkts_total counter\n\
    router_output_pkts_total{interface=\"0\"} 0\n\
    router_output_pkts_total{interface=\"65535\"} 12\n\
    # HELP router_dropped_pkts_total Packets and answers that were dropped, by cause.\n\
    # TYPE router_dropped_pkts_total counter\n\
    router_dropped_pkts_total{cause=\"1\",reason=\"short\"} 101\n\
    router_dropped_pkts_total{cause=\"2\",reason=\"version\"} 102\n\
    router_dropped_pkts_total{cause=\"3\",reason=\"path_type\"} 103\n\
    router_dropped_pkts_total{cause=\"4\",reason=\"header\"} 104\n\
    router_dropped_pkts_total{cause=\"5\",reason=\"path\"} 105\n\
    router_dropped_pkts_total{cause=\"6\",reason=\"peering\"} 106\n\
    router_dropped_pkts_total{cause=\"7\",reason=\"underlay_source\"} 107\n\
    router_dropped_pkts_total{cause=\"8\",reason=\"path_end\"} 108\n\
    router_dropped_pkts_total{cause=\"9\",reason=\"no_answer\"} 109\n\
    router_dropped_pkts_total{cause=\"10\",reason=\"no_way_back\"} 110\n\
    router_dropped_pkts_total{cause=\"11\",reason=\"too_long\"} 111\n\
    router_dropped_pkts_total{cause=\"12\",reason=\"processor_full\"} 112\n\
    router_dropped_pkts_total{cause=\"13\",reason=\"link_full\"} 113\n\
    router_dropped_pkts_total{cause=\"14\",reason=\"answer_full\"} 114\n\
    router_dropped_pkts_total{cause=\"15\",reason=\"no_memory\"} 115\n\
    router_dropped_pkts_total{cause=\"16\",reason=\"closed\"} 116\n\
    router_dropped_pkts_total{cause=\"17\",reason=\"send_failed\"} 117\n\
    router_dropped_pkts_total{cause=\"18\",reason=\"no_buffer\"} 118\n\
    router_dropped_pkts_total{cause=\"19\",reason=\"one_hop_ends\"} 119\n\
    router_dropped_pkts_total{cause=\"20\",reason=\"one_hop_field\"} 120\n\
    router_dropped_pkts_total{cause=\"21\",reason=\"one_hop_host\"} 121\n\
    # HELP router_answered_pkts_total Packets whose answer was handed to a socket.\n\
    # TYPE router_answered_pkts_total counter\n\
    router_answered_pkts_total 3\n\
    # HELP router_link_closed 1 where the link was closed, else 0.\n\
    # TYPE router_link_closed gauge\n\
    router_link_closed{interface=\"0\"} 0\n\
    router_link_closed{interface=\"65535\"} 1\n\
    # HELP yewpleat_build_info The version that runs; its value is 1.\n\
    # TYPE yewpleat_build_info gauge\n\
    yewpleat_build_info{version=\"0.\\\\1\\\"2\\n3\"} 1\n\
    # HELP process_start_time_seconds When it began to run, in seconds since 1970.\n\
    # TYPE process_start_time_seconds gauge\n\
    process_start_time_seconds 1700000000\n";

const LINKS: [LinkCounts; 2] = [
    LinkCounts {
        interface: 0,
        input: 7,
        output: 0,
        closed: false,
    },
    LinkCounts {
        interface: 65535,
        input: u128::MAX,
        output: 12,
        closed: true,
    },
];

#[test]
fn two_links_as_text(rt: HostRuntime) {
    let mut totals = Totals {
        received: 7,
        sent: 9,
        answered: 3,
        dropped: [0; CAUSES],
    };
    for index in 0..CAUSES {
        totals.dropped[index] = 101 + index as u128;
    }
    let mut text = Vec::new(rt.alloc());
    let made = push_metrics(&mut text, &LINKS, &totals, "0.\\1\"2\n3", 1700000000);
    assert!(rt; made.is_ok());
    assert!(rt; text.as_slice() == TEXT.as_bytes());
}
