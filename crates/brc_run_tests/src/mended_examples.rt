//! The mended modules of examples/from_c.

pub const MENDED: &[(&str, &[u8])] = &[
    (
        "add_object_leaked_mended",
        b"module 2\nfunc add_object_ref borrow list borrow any\nnum v3 0 else @7\nlock v1\nput v1 0 v2 else @5\n\
          unlock v1\nret v3\nunlock v1\ndrop v3\nfail\nend\nfunc f\nlist v1 1 else @8\nnum v2 7 else @7\n\
          call v3 add_object_ref v1 v2 else @6\ndrop v2\ndrop v3\nret v1\ndrop v2\ndrop v1\nfail\nend\n",
    ),
    (
        "add_object_released_mended",
        b"module 2\nfunc add_object_ref borrow list borrow any\nnum v3 0 else @7\nlock v1\nput v1 0 v2 else @5\n\
          unlock v1\nret v3\nunlock v1\ndrop v3\nfail\nend\nfunc f\nlist v1 1 else @8\nnum v2 7 else @7\n\
          call v3 add_object_ref v1 v2 else @6\ndrop v2\ndrop v3\nret v1\ndrop v2\ndrop v1\nfail\nend\n",
    ),
    (
        "argument_released_mended",
        b"module 1\nfunc f\nnum v1 7 else @2\nret v1\nfail\nend\n",
    ),
    (
        "attribute_leaked_mended",
        b"module 2\nfunc get_attr borrow any\nas v1 list else @7\nlock v1\nfetch v2 v1 0 else @5\nunlock v1\n\
          ret v2\nunlock v1\nfail\nfail\nend\nfunc f\ncall v1 get_attr v0 else @5\ncall v2 get_attr v1 else @4\n\
          drop v1\nret v2\ndrop v1\nfail\nend\nfunc fill\nlist v1 1 else @11\nnum v2 7 else @10\nlock v1\n\
          set v1 0 v2 else @4\nunlock v1\nlock v0\nset v0 0 v1 else @7\nunlock v0\nnone v1\nret v1\ndrop v1\n\
          fail\nend\n",
    ),
    (
        "borrowed_item_stolen_mended",
        b"module 1\nfunc f\nlock v0\nborrow v1 v0 0 else @7\nnewref v1 v1\nset v0 1 v1 else @7\nunlock v0\n\
          none v1\nret v1\nunlock v0\nfail\nend\nfunc fill\nnum v1 7 else @6\nlock v0\nset v0 0 v1 else @3\n\
          unlock v0\nnone v1\nret v1\nfail\nend\n",
    ),
    (
        "build_value_n_lent_mended",
        b"module 2\nfunc build_o borrow any\nlist v2 1 else @7\nlock v2\nput v2 0 v1 else @5\nunlock v2\nret v2\n\
          unlock v2\ndrop v2\nfail\nend\nfunc f\ncall v1 build_o v0 else @2\nret v1\nfail\nend\n",
    ),
    (
        "build_value_o_owned_mended",
        b"module 2\nfunc build_n steal any\nlist v2 1 else @8\nlock v2\nset v2 0 v1 else @5\nunlock v2\nret v2\n\
          unlock v2\ndrop v2\nfail\ndrop v1\nfail\nend\nfunc f\nnum v1 7 else @3\ncall v2 build_n v1 else @3\n\
          ret v2\nfail\nend\n",
    ),
    (
        "cached_item_returned_mended",
        b"module 3\nstatic 0\nfunc fill\nnum v1 7 else @6\ntake v2 0\nlock v2\nset v2 0 v1 else @4\nunlock v2\n\
          drop v2\nfail\nend\nfunc f\ntake v1 0\nlock v1\nfetch v2 v1 0 else @6\nunlock v1\ndrop v1\nret v2\n\
          unlock v1\ndrop v1\nfail\nend\n",
    ),
    (
        "dict_item_after_call_mended",
        b"module 2\nfunc object_call borrow list\nnum v2 0 else @7\nlock v1\nset v1 0 v2 else @6\nunlock v1\n\
          none v3\nret v3\nunlock v1\nfail\nend\nfunc f\nlock v0\nfetch v1 v0 0 else @8\nunlock v0\n\
          call v2 object_call v0 else @6\ndrop v2\nret v1\ndrop v1\nfail\nunlock v0\nfail\nend\nfunc fill\n\
          num v1 7 else @6\nlock v0\nset v0 0 v1 else @3\nunlock v0\nnone v1\nret v1\nfail\nend\n",
    ),
    (
        "dict_set_kept_mended",
        b"module 2\nfunc dict_set borrow list borrow any\nlock v1\nput v1 0 v2 else @5\nunlock v1\nnone v3\n\
          ret v3\nunlock v1\nfail\nend\nfunc f\nlist v1 1 else @8\nnum v2 7 else @7\n\
          call v3 dict_set v1 v2 else @6\ndrop v2\ndrop v3\nret v1\ndrop v2\ndrop v1\nfail\nend\n",
    ),
    (
        "error_label_shared_mended",
        b"module 1\nfunc f\nnum v1 1 else @5\nnum v2 2 else @4\ndrop v1\nret v2\ndrop v1\nfail\nend\n",
    ),
    (
        "file_left_open_mended",
        b"module 1\nfunc f\nopen v1 0 r else @8\nlock v1\nread v2 v1 4 else @6\nunlock v1\ndrop v1\nret v2\n\
          unlock v1\ndrop v1\nfail\nend\n",
    ),
    (
        "helpers",
        b"module 2\nfunc dict_get_ref borrow list\nlock v1\nfetch v2 v1 0 else @4\nunlock v1\nret v2\nunlock v1\n\
          fail\nend\nfunc dict_set borrow list borrow any\nlock v1\nput v1 0 v2 else @5\nunlock v1\nnone v3\n\
          ret v3\nunlock v1\nfail\nend\nfunc tuple_set borrow list steal any\nlock v1\nset v1 0 v2 else @5\n\
          unlock v1\nnone v3\nret v3\nunlock v1\nfail\nend\nfunc get_attr borrow any\nnum v2 7 else @2\nret v2\n\
          fail\nend\nfunc object_call borrow any borrow any\nnum v3 7 else @2\nret v3\nfail\nend\nfunc parse\n\
          num v1 0 else @2\nret v1\nfail\nend\nfunc build_o borrow any\nlist v2 1 else @7\nlock v2\n\
          put v2 0 v1 else @5\nunlock v2\nret v2\nunlock v2\ndrop v2\nfail\nend\nfunc build_n steal any\n\
          list v2 1 else @8\nlock v2\nset v2 0 v1 else @5\nunlock v2\nret v2\nunlock v2\ndrop v2\nfail\ndrop v1\n\
          fail\nend\nfunc add_object_ref borrow list borrow any\nnum v3 0 else @7\nlock v1\nput v1 0 v2 else @5\n\
          unlock v1\nret v3\nunlock v1\ndrop v3\nfail\nend\nfunc module_add borrow list steal any\n\
          num v3 0 else @8\nlock v1\nset v1 0 v2 else @5\nunlock v1\nret v3\nunlock v1\ndrop v3\nfail\ndrop v2\n\
          fail\nend\nfunc iter_next borrow any\nnum v2 7 else @2\nret v2\nfail\nend\n",
    ),
    (
        "item_after_section_mended",
        b"module 1\nfunc f\nlock v0\nborrow v1 v0 0 else @8\nnewref v1 v1\nunlock v0\nas v1 num else @6\nret v1\n\
          drop v1\nfail\nunlock v0\nfail\nend\nfunc fill\nnum v1 7 else @6\nlock v0\nset v0 0 v1 else @3\n\
          unlock v0\nnone v1\nret v1\nfail\nend\n",
    ),
    (
        "item_after_set_mended",
        b"module 1\nfunc f\nnum v1 0 else @11\nlock v0\nborrow v2 v0 0 else @9\nnewref v2 v2\n\
          set v0 0 v1 else @7\nunlock v0\nret v2\ndrop v2\ngoto @10\ndrop v1\nunlock v0\nfail\nend\nfunc fill\n\
          num v1 7 else @6\nlock v0\nset v0 0 v1 else @3\nunlock v0\nnone v1\nret v1\nfail\nend\n",
    ),
    (
        "item_returned_mended",
        b"module 1\nfunc f\nlock v0\nfetch v1 v0 0 else @4\nunlock v0\nret v1\nunlock v0\nfail\nend\nfunc fill\n\
          num v1 7 else @6\nlock v0\nset v0 0 v1 else @3\nunlock v0\nnone v1\nret v1\nfail\nend\n",
    ),
    (
        "kind_not_asked_mended",
        b"module 1\nfunc f\nlock v0\nfetch v1 v0 0 else @15\nunlock v0\nas v1 list else @13\nlock v1\n\
          borrow v2 v1 0 else @10\nnewref v2 v2\nunlock v1\ndrop v1\nret v2\nunlock v1\ndrop v1\nfail\ndrop v1\n\
          fail\nunlock v0\nfail\nend\nfunc fill\nnum v1 7 else @6\nlock v0\nset v0 0 v1 else @3\nunlock v0\n\
          none v1\nret v1\nfail\nend\n",
    ),
    (
        "list_leaked_at_error_mended",
        b"module 1\nfunc f\nlist v1 1 else @8\nnum v2 7 else @7\nlock v1\nset v1 0 v2 else @6\nunlock v1\nret v1\n\
          unlock v1\ndrop v1\nfail\nend\n",
    ),
    (
        "lock_left_at_error_mended",
        b"module 1\nfunc f\nlock v0\nnum v1 7 else @6\nset v0 0 v1 else @6\nunlock v0\nnone v1\nret v1\n\
          unlock v0\nfail\nend\n",
    ),
    (
        "loop_releases_last_mended",
        b"module 1\nfunc f\nlock v0\nfetch v1 v0 0 else @7\nunlock v0\ndrop v1\nagain @0 3\nnone v1\nret v1\n\
          unlock v0\nfail\nend\nfunc fill\nnum v1 7 else @6\nlock v0\nset v0 0 v1 else @3\nunlock v0\nnone v1\n\
          ret v1\nfail\nend\n",
    ),
    (
        "module_add_released_mended",
        b"module 2\nfunc module_add borrow list steal any\nnum v3 0 else @8\nlock v1\nset v1 0 v2 else @5\n\
          unlock v1\nret v3\nunlock v1\ndrop v3\nfail\ndrop v2\nfail\nend\nfunc f\nlist v1 1 else @6\n\
          num v2 7 else @5\ncall v3 module_add v1 v2 else @5\ndrop v3\nret v1\ndrop v1\nfail\nend\n",
    ),
    (
        "no_section_mended",
        b"module 1\nfunc f\nlock v0\nborrow v1 v0 0 else @5\nnewref v1 v1\nunlock v0\nret v1\nunlock v0\nfail\n\
          end\nfunc fill\nnum v1 7 else @6\nlock v0\nset v0 0 v1 else @3\nunlock v0\nnone v1\nret v1\nfail\nend\n",
    ),
    (
        "number_overwritten_mended",
        b"module 1\nfunc f\nnum v1 1 else @4\ndrop v1\nnum v1 2 else @4\nret v1\nfail\nend\n",
    ),
    (
        "own_reference_kept_mended",
        b"module 1\nfunc f\nnum v1 7 else @9\nlock v0\nput v0 0 v1 else @7\nunlock v0\ndrop v1\nnone v2\nret v2\n\
          unlock v0\ndrop v1\nfail\nend\n",
    ),
    (
        "second_section_mended",
        b"module 1\nfunc f\nlist v1 1 else @12\nlock v0\nfetch v2 v0 0 else @10\nunlock v0\nlock v1\n\
          set v1 0 v2 else @8\nunlock v1\nret v1\nunlock v1\ngoto @11\nunlock v0\ndrop v1\nfail\nend\nfunc fill\n\
          num v1 7 else @6\nlock v0\nset v0 0 v1 else @3\nunlock v0\nnone v1\nret v1\nfail\nend\n",
    ),
    (
        "section_across_call_mended",
        b"module 2\nfunc object_call borrow any\nnewref v2 v1\nlock v0\nput v0 1 v1 else @5\nunlock v0\nret v2\n\
          unlock v0\ndrop v2\nfail\nend\nfunc f\nlock v0\nfetch v1 v0 0 else @8\nunlock v0\n\
          call v2 object_call v1 else @6\ndrop v1\nret v2\ndrop v1\nfail\nunlock v0\nfail\nend\nfunc fill\n\
          num v1 7 else @6\nlock v0\nset v0 0 v1 else @3\nunlock v0\nnone v1\nret v1\nfail\nend\n",
    ),
    (
        "stolen_released_again_mended",
        b"module 1\nfunc f\nnum v1 7 else @7\nlock v0\nset v0 8 v1 else @6\nunlock v0\nnone v1\nret v1\n\
          unlock v0\nfail\nend\n",
    ),
    (
        "stolen_returned_mended",
        b"module 2\nfunc tuple_set borrow list steal any\nlock v1\nset v1 0 v2 else @5\nunlock v1\nnone v3\n\
          ret v3\nunlock v1\nfail\nend\nfunc f\nlist v1 2 else @9\nnum v2 7 else @8\nnewref v4 v2\n\
          call v3 tuple_set v1 v4 else @7\ndrop v3\ndrop v1\nret v2\ndrop v2\ndrop v1\nfail\nend\n",
    ),
];
