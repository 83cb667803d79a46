//! Yields at a price with more than six months left.
//!
//! They were computed outside the program, with whole numbers of unbounded size. A line `base` gives
//! an issue to the lines after it. These give the coupon, if there is one, a settlement, a call, if
//! the payments end with it, the price that is given, and the answer in thousandths of a percent:
//! the yield that it `prints`, or the lower of the two between which it is `unsure`, or
//! `below`, or `above`.

pub const CASES: &str = "\
# Worked by hand
base periodic dated=2020-01-01 first=2020-07-01 maturity=2025-01-01
coupon=5 settle=2024-04-01 price=100.725 prints=4001
coupon=1 settle=2024-01-01 price=150 below
coupon=1 settle=2024-01-01 price=1 above
base periodic dated=2022-01-01 first=2022-07-01 maturity=2034-01-01
coupon=4.0625 settle=2024-01-01 price=100 prints=4063
base periodic dated=2022-01-01 first=2022-07-01 maturity=2044-01-01
coupon=4 settle=2024-01-01 call=2034-01-01:100 price=108.584 prints=3000
coupon=4 settle=2024-01-01 price=108.584 prints=3405
# The least price and the greatest; two, three and a hundred payments; coupons at their ends
base zero dated=2020-01-01 maturity=2025-01-01
settle=2024-01-01 price=0.000001 above
settle=2024-01-01 price=999.999999 below
settle=2024-01-01 price=95 prints=5196
base zero dated=2020-01-01 maturity=2025-07-01
settle=2024-02-15 price=0.000001 above
settle=2024-02-15 price=999.999999 below
settle=2024-02-15 price=95 prints=3758
base periodic dated=2020-01-01 first=2020-07-01 maturity=2025-01-01
coupon=0.0000001 settle=2024-04-01 price=0.000001 above
coupon=0.0000001 settle=2024-04-01 price=999.999999 below
coupon=0.0000001 settle=2024-04-01 price=100 prints=0
coupon=30 settle=2024-04-01 price=121.25 prints=1401
base periodic dated=2020-01-01 first=2020-07-01 maturity=2025-07-01
coupon=30 settle=2024-01-01 price=0.000001 above
coupon=30 settle=2024-01-01 price=999.999999 below
coupon=30 settle=2024-01-01 price=100 prints=30000
base periodic dated=1990-01-01 first=1990-07-01 maturity=2040-01-01
coupon=30 settle=1990-01-01 price=0.000001 above
coupon=30 settle=1990-01-01 price=999.999999 prints=1920
coupon=0.0000001 settle=1990-04-01 price=999.999999 prints=-4575
coupon=30 settle=1990-01-01 price=100 prints=30000
coupon=30 settle=1990-04-01 price=750 prints=3302
coupon=4.7777 settle=1990-01-02 price=86.985 prints=5550
base zero dated=1990-01-01 maturity=2040-01-01
settle=1990-01-01 price=999.999999 prints=-4553
settle=1990-01-01 price=13.803 prints=4000
settle=1990-06-30 price=0.5 prints=10995
# Yields of -5.000, -4.999, 99.999 and 100.000 percent, and prices a millionth past them
base periodic dated=2020-01-01 first=2020-07-01 maturity=2025-01-01
coupon=5 settle=2024-04-01 price=107.749733 prints=-5000
coupon=5 settle=2024-04-01 price=107.749734 below
coupon=5 settle=2024-04-01 price=107.748907 prints=-4999
coupon=5 settle=2024-04-01 price=107.748908 prints=-5000
coupon=5 settle=2024-04-01 price=56.585315 prints=100000
coupon=5 settle=2024-04-01 price=56.585316 prints=99999
coupon=5 settle=2024-04-01 price=56.585033 above
coupon=5 settle=2024-04-01 price=56.585034 prints=100000
base periodic dated=2020-01-01 first=2020-07-01 maturity=2026-01-01
coupon=12.25 settle=2024-07-01 price=127.22568 prints=-5000
coupon=12.25 settle=2024-07-01 price=127.225681 below
coupon=12.25 settle=2024-07-01 price=127.223821 prints=-4999
coupon=12.25 settle=2024-07-01 price=127.223822 prints=-5000
coupon=12.25 settle=2024-07-01 price=38.250173 prints=100000
coupon=12.25 settle=2024-07-01 price=38.250174 prints=99999
coupon=12.25 settle=2024-07-01 price=38.249826 above
coupon=12.25 settle=2024-07-01 price=38.249827 prints=100000
base zero dated=2020-01-01 maturity=2025-01-01
settle=2024-06-30 price=102.578794 prints=-5000
settle=2024-06-30 price=102.578795 below
settle=2024-06-30 price=102.578265 prints=-4999
settle=2024-06-30 price=102.578266 prints=-5000
settle=2024-06-30 price=66.516774 prints=100000
settle=2024-06-30 price=66.516775 prints=99999
settle=2024-06-30 price=66.516551 above
settle=2024-06-30 price=66.516552 prints=100000
base periodic dated=1990-01-01 first=1990-07-01 maturity=2040-01-01
coupon=1 settle=1990-04-01 call=2039-07-01:50 price=827.700635 prints=-5000
coupon=1 settle=1990-04-01 call=2039-07-01:50 price=827.700636 below
coupon=1 settle=1990-04-01 call=2039-07-01:50 price=827.316964 prints=-4999
coupon=1 settle=1990-04-01 call=2039-07-01:50 price=827.316965 prints=-5000
coupon=1 settle=1990-04-01 call=2039-07-01:50 price=0.974749 prints=100000
coupon=1 settle=1990-04-01 call=2039-07-01:50 price=0.97475 prints=99999
coupon=1 settle=1990-04-01 call=2039-07-01:50 price=0.974739 above
coupon=1 settle=1990-04-01 call=2039-07-01:50 price=0.97474 prints=100000
coupon=4.7777 settle=1990-01-01 price=4.777723 prints=100000
coupon=4.7777 settle=1990-01-01 price=4.777724 prints=99999
coupon=4.7777 settle=1990-01-01 price=4.777676 above
coupon=4.7777 settle=1990-01-01 price=4.777677 prints=100000
# Yields of 0.000 percent from either side, and the sum of the payments itself
base periodic dated=2020-01-01 first=2020-07-01 maturity=2025-01-01
coupon=5 settle=2024-04-01 price=103.75 prints=0
coupon=5 settle=2024-04-01 price=103.749999 prints=0
coupon=5 settle=2024-04-01 price=103.750001 prints=0
coupon=5 settle=2024-04-01 price=103.749612 prints=1
coupon=5 settle=2024-04-01 price=103.749613 prints=0
coupon=5 settle=2024-04-01 price=103.750387 prints=0
coupon=5 settle=2024-04-01 price=103.750388 prints=-1
base periodic dated=2020-01-01 first=2020-07-01 maturity=2034-01-01
coupon=5 settle=2024-02-16 price=149.375 prints=0
coupon=5 settle=2024-02-16 price=149.374999 prints=0
coupon=5 settle=2024-02-16 price=149.375001 prints=0
coupon=5 settle=2024-02-16 price=149.368781 prints=1
coupon=5 settle=2024-02-16 price=149.368782 prints=0
coupon=5 settle=2024-02-16 price=149.381218 prints=0
coupon=5 settle=2024-02-16 price=149.381219 prints=-1
base zero dated=2020-01-01 maturity=2025-01-01
settle=2024-03-15 price=100 prints=0
settle=2024-03-15 price=99.999999 prints=0
settle=2024-03-15 price=100.000001 prints=0
settle=2024-03-15 price=99.999602 prints=1
settle=2024-03-15 price=99.999603 prints=0
settle=2024-03-15 price=100.000397 prints=0
settle=2024-03-15 price=100.000398 prints=-1
# Yields below zero
base periodic dated=2020-01-01 first=2020-07-01 maturity=2025-01-01
coupon=5 settle=2024-01-02 price=105.1 prints=-110
coupon=5 settle=2024-01-02 price=106.275 prints=-1234
coupon=5 settle=2024-01-02 price=107.2 prints=-2106
coupon=5 settle=2024-01-02 price=109.999999 prints=-4678
base periodic dated=2022-01-01 first=2022-07-01 maturity=2044-01-01
coupon=4 settle=2024-01-01 price=181.25 prints=-44
coupon=4 settle=2024-01-01 price=250 prints=-2038
base zero dated=1990-01-01 maturity=2040-01-01
settle=2000-02-29 price=321.123456 prints=-2907
# A par bond on an interest date, its yield exactly on a boundary, and prices a millionth away
base periodic dated=2022-01-01 first=2022-07-01 maturity=2034-01-01
coupon=4.0625 settle=2024-01-01 price=99.999999 prints=4063
coupon=4.0625 settle=2024-01-01 price=100.000001 prints=4062
coupon=4.0625 settle=2023-12-31 price=99.999999 prints=4063
coupon=4.0625 settle=2023-12-31 price=100 prints=4063
coupon=4.0625 settle=2023-12-31 price=100.000001 prints=4062
base periodic dated=2020-01-01 first=2020-07-01 maturity=2030-01-01
coupon=0.0005 settle=2024-01-01 price=99.999999 prints=1
coupon=0.0005 settle=2024-01-01 price=100 prints=1
coupon=0.0005 settle=2024-01-01 price=100.000001 prints=0
base periodic dated=2020-01-01 first=2020-07-01 maturity=2034-01-01
coupon=5.10561 settle=2024-01-01 call=2030-01-01:102 price=101.999999 prints=5006
coupon=5.10561 settle=2024-01-01 call=2030-01-01:102 price=102 prints=5006
coupon=5.10561 settle=2024-01-01 call=2030-01-01:102 price=102.000001 prints=5005
coupon=14.401 settle=2023-12-31 call=2033-07-01:200 price=199.999999 prints=7201
coupon=14.401 settle=2023-12-31 call=2033-07-01:200 price=200 prints=7201
coupon=14.401 settle=2023-12-31 call=2033-07-01:200 price=200.000001 prints=7200
# Likewise, with two and three periods, on an interest date or on day 180 of a period
base periodic dated=2020-01-01 first=2020-07-01 maturity=2024-07-01
coupon=0.0405001 settle=2023-12-31 price=100.019999 prints=1
coupon=0.0405001 settle=2023-12-31 price=100.02 prints=1
coupon=0.0405001 settle=2023-12-31 price=100.020001 prints=0
coupon=0.0394999 settle=2023-12-31 price=100.019999 prints=0
coupon=0.0394999 settle=2023-12-31 price=100.02 prints=-1
coupon=0.0394999 settle=2023-12-31 price=100.020001 prints=-1
coupon=4.00034 settle=2023-12-31 price=67.999999 above
coupon=4.00034 settle=2023-12-31 price=68 above
coupon=4.00034 settle=2023-12-31 price=68.000001 prints=100000
coupon=3.99966 settle=2023-12-31 price=67.999999 prints=100000
coupon=3.99966 settle=2023-12-31 price=68 prints=100000
coupon=3.99966 settle=2023-12-31 price=68.000001 prints=99999
coupon=2.80052 settle=2023-12-31 price=103.999999 prints=-4999
coupon=2.80052 settle=2023-12-31 price=104 prints=-5000
coupon=2.80052 settle=2023-12-31 price=104.000001 prints=-5000
coupon=2.79948 settle=2023-12-31 price=103.999999 prints=-5000
coupon=2.79948 settle=2023-12-31 price=104 below
coupon=2.79948 settle=2023-12-31 price=104.000001 below
base periodic dated=2020-01-01 first=2020-07-01 maturity=2034-01-01
coupon=29.599812 settle=2024-01-01 call=2025-01-01:8.000037 price=37.599999 prints=0
coupon=29.599812 settle=2024-01-01 call=2025-01-01:8.000037 price=37.6 prints=-1
coupon=29.599812 settle=2024-01-01 call=2025-01-01:8.000037 price=37.600001 prints=-1
coupon=0.800044 settle=2023-12-31 call=2025-01-01:7.999999 price=8.799999 prints=1
coupon=0.800044 settle=2023-12-31 call=2025-01-01:7.999999 price=8.8 prints=1
coupon=0.800044 settle=2023-12-31 call=2025-01-01:7.999999 price=8.800001 prints=0
base zero dated=2020-01-01 maturity=2025-01-01
settle=2024-01-01 price=104.857599 prints=-4687
settle=2024-01-01 price=104.8576 prints=-4688
settle=2024-01-01 price=104.857601 prints=-4688
settle=2023-12-31 price=104.857599 prints=-4687
settle=2023-12-31 price=104.8576 prints=-4688
settle=2023-12-31 price=104.857601 prints=-4688
base periodic dated=2020-01-01 first=2020-07-01 maturity=2025-07-01
coupon=3.125 settle=2024-01-01 price=112.290303 prints=-4687
coupon=3.125 settle=2024-01-01 price=112.290304 prints=-4688
coupon=3.125 settle=2024-01-01 price=112.290305 prints=-4688
coupon=1.096 settle=2024-01-01 price=86.716415 prints=10938
coupon=1.096 settle=2024-01-01 price=86.716416 prints=10938
coupon=1.096 settle=2024-01-01 price=86.716417 prints=10937
base periodic dated=2020-01-01 first=2020-07-01 maturity=2025-01-01
coupon=0.0025 settle=2024-01-01 price=89.900799 prints=10938
coupon=0.0025 settle=2024-01-01 price=89.9008 prints=10938
coupon=0.0025 settle=2024-01-01 price=89.900801 prints=10937
# Likewise, in no exact case
base periodic dated=2020-01-01 first=2020-07-01 maturity=2025-07-01
coupon=3.125 settle=2023-12-31 price=112.290303 prints=-4687
coupon=3.125 settle=2023-12-31 price=112.290304 unsure=-4688
coupon=3.125 settle=2023-12-31 price=112.290305 prints=-4688
coupon=1.096 settle=2023-12-31 price=86.716415 prints=10938
coupon=1.096 settle=2023-12-31 price=86.716416 unsure=10937
coupon=1.096 settle=2023-12-31 price=86.716417 prints=10937
base zero dated=2020-01-01 maturity=2034-01-01
settle=2023-12-31 call=2025-07-01:195.3125 price=209.715199 prints=-4687
settle=2023-12-31 call=2025-07-01:195.3125 price=209.7152 unsure=-4688
settle=2023-12-31 call=2025-07-01:195.3125 price=209.715201 prints=-4688
base periodic dated=2020-01-01 first=2020-07-01 maturity=2026-01-01
coupon=24.4519641 settle=2024-01-01 price=153.061215 prints=-1562
coupon=24.4519641 settle=2024-01-01 price=153.061216 unsure=-1563
coupon=24.4519641 settle=2024-01-01 price=153.061217 prints=-1563
coupon=24.4519641 settle=2023-12-31 price=153.061215 prints=-1562
coupon=24.4519641 settle=2023-12-31 price=153.061216 unsure=-1563
coupon=24.4519641 settle=2023-12-31 price=153.061217 prints=-1563
coupon=29.2547881 settle=2024-01-01 price=154.319519 prints=1563
coupon=29.2547881 settle=2024-01-01 price=154.31952 unsure=1562
coupon=29.2547881 settle=2024-01-01 price=154.319521 prints=1562
base periodic dated=2020-01-01 first=2020-07-01 maturity=2034-01-01
coupon=3.127 settle=2024-01-01 call=2026-01-01:14.670875 price=22.769151 prints=-4687
coupon=3.127 settle=2024-01-01 call=2026-01-01:14.670875 price=22.769152 unsure=-4688
coupon=3.127 settle=2024-01-01 call=2026-01-01:14.670875 price=22.769153 prints=-4688
# Settlements on the 31st, in February, on the day before interest, and on an interest date
base periodic dated=2023-12-15 first=2024-02-28 maturity=2029-08-28
coupon=3.25 settle=2024-02-28 price=99.5 prints=3350
coupon=3.25 settle=2024-02-29 price=99.5 prints=3350
coupon=3.25 settle=2024-03-31 price=99.5 prints=3351
coupon=3.25 settle=2024-08-27 price=99.5 prints=3359
coupon=3.25 settle=2024-08-28 price=99.5 prints=3359
coupon=3.25 settle=2024-08-31 price=99.5 prints=3360
base periodic dated=2023-02-15 first=2023-08-15 maturity=2033-02-15
coupon=4.125 settle=2023-02-28 price=102.345678 prints=3839
coupon=4.125 settle=2023-03-31 price=102.345678 prints=3837
coupon=4.125 settle=2024-01-31 price=102.345678 prints=3816
coupon=4.125 settle=2024-02-14 price=102.345678 prints=3815
coupon=4.125 settle=2024-02-15 price=102.345678 prints=3815
coupon=4.125 settle=2024-02-29 price=102.345678 prints=3813
coupon=4.125 settle=2024-10-30 price=102.345678 prints=3792
coupon=4.125 settle=2024-10-31 price=102.345678 prints=3792
base periodic dated=2022-01-01 first=2022-07-01 maturity=2044-01-01
coupon=4 settle=2023-12-30 price=97.003 prints=4223
coupon=4 settle=2023-12-31 price=97.003 prints=4223
coupon=4 settle=2024-01-01 price=97.003 prints=4223
coupon=4 settle=2024-01-02 price=97.003 prints=4223
base zero dated=2020-01-01 maturity=2034-01-01
settle=2024-05-31 price=61.5 prints=5138
settle=2024-06-30 price=61.5 prints=5182
settle=2024-07-01 price=61.5 prints=5183
# First interest for less than half a year, for more, and with dates passed over
base periodic dated=2023-11-20 first=2024-01-01 maturity=2028-01-01
coupon=4.125 settle=2023-11-20 price=101.25 prints=3795
coupon=4.125 settle=2023-12-31 price=101.25 prints=3785
coupon=4.125 settle=2024-01-01 price=101.25 prints=3785
base periodic dated=2020-06-30 first=2020-07-01 maturity=2030-01-01
coupon=6 settle=2020-06-30 price=120.062 prints=3500
base periodic dated=2024-01-15 first=2024-10-01 maturity=2026-10-01
coupon=6 settle=2024-01-15 price=104 prints=4411
coupon=6 settle=2024-02-01 price=104 prints=4385
coupon=6 settle=2024-03-31 price=104 prints=4284
coupon=6 settle=2024-04-01 price=104 prints=4284
coupon=6 settle=2024-09-30 price=104 prints=3904
coupon=6 settle=2024-10-01 price=104 prints=3902
coupon=6 settle=2024-01-15 call=2024-10-01:101 price=104.5 prints=1031
base periodic dated=2024-05-10 first=2024-11-15 maturity=2024-11-15
coupon=5.25 settle=2024-05-10 price=100.125 prints=4999
base periodic dated=2023-07-01 first=2024-07-01 maturity=2034-07-01
coupon=30 settle=2023-07-01 price=230.624 prints=10026
coupon=30 settle=2023-12-31 price=230.624 prints=9745
coupon=30 settle=2024-01-01 price=230.624 prints=9745
coupon=30 settle=2024-06-30 price=230.624 prints=9490
base periodic dated=2023-07-02 first=2024-07-01 maturity=2026-01-01
coupon=0.0000001 settle=2023-07-03 price=94.5 prints=2281
base periodic dated=2024-01-02 first=2024-12-15 maturity=2034-12-15
coupon=7.7777777 settle=2024-05-31 price=131.83 prints=4032
# Redeemed at 102, at 200 and at 1
base periodic dated=2020-01-01 first=2020-07-01 maturity=2034-01-01
coupon=5.1 settle=2024-01-02 call=2030-01-01:102 price=50 prints=19949
coupon=5.1 settle=2024-01-02 call=2030-01-01:102 price=101.999 prints=5000
coupon=5.1 settle=2024-01-02 call=2030-01-01:200 price=50 prints=30556
coupon=5.1 settle=2024-01-02 call=2030-01-01:200 price=101.999 prints=15335
coupon=5.1 settle=2024-01-02 call=2030-01-01:1 price=50 below
coupon=5.1 settle=2024-01-02 call=2030-01-01:1 price=101.999 below
coupon=5.1 settle=2024-01-01 call=2030-01-01:102 price=102 prints=5000
coupon=10 settle=2024-01-01 call=2030-01-01:200 price=200 prints=5000
coupon=30 settle=2024-01-02 call=2025-01-01:1 price=1 above
base zero dated=2020-01-01 maturity=2034-01-01
settle=2024-04-01 call=2030-01-01:102 price=88.25 prints=2534
settle=2024-04-01 call=2030-01-01:200 price=150.5 prints=5007
settle=2024-04-01 call=2030-01-01:1 price=0.75 prints=5066
# Days at the ends of the calendar
base periodic dated=1902-01-01 first=1902-07-01 maturity=1907-01-01
coupon=4 settle=1902-02-28 price=101 prints=3771
base zero dated=2149-12-31 maturity=2199-12-28
settle=2149-12-31 price=25 prints=2792
settle=2199-06-27 price=97.531 prints=5035
# At random
base zero dated=2020-01-01 maturity=2041-01-01
settle=2024-01-08 price=68.465657 prints=2244
base periodic dated=2020-01-01 first=2020-07-01 maturity=2028-01-01
coupon=5 settle=2024-01-08 call=2026-01-01:100.5 price=33.286792 prints=74875
base periodic dated=2020-01-01 first=2020-07-01 maturity=2027-01-01
coupon=3 settle=2024-02-26 call=2026-01-01:101.25 price=81.894957 prints=15213
coupon=2.75 settle=2024-06-08 price=88.6664 prints=7705
coupon=5 settle=2024-04-21 call=2026-01-01:100.5 price=100.140739 prints=5194
base zero dated=2020-01-01 maturity=2026-01-01
settle=2024-02-04 price=85.864646 prints=8148
base zero dated=2020-01-01 maturity=2026-07-01
settle=2024-01-26 price=91.689926 prints=3602
settle=2024-05-27 price=96.475528 prints=1721
base periodic dated=2020-01-01 first=2020-07-01 maturity=2041-01-01
coupon=5 settle=2024-05-24 price=215.132727 prints=-1229
coupon=6.125 settle=2024-01-21 price=44.935837 prints=15306
coupon=5 settle=2024-03-09 price=115.430831 prints=3754
base periodic dated=2020-01-01 first=2020-07-01 maturity=2025-07-01
coupon=5 settle=2024-02-12 price=45.159577 prints=75098
coupon=2.75 settle=2024-04-12 price=47.885653 prints=75081
base periodic dated=2020-01-01 first=2020-07-01 maturity=2026-07-01
coupon=4.56789 settle=2024-02-27 price=109.415944 prints=522
coupon=5 settle=2024-04-13 price=100.714779 prints=4654
coupon=2.75 settle=2024-06-02 call=2026-01-01:103 price=106.818544 prints=317
coupon=4.56789 settle=2024-03-28 call=2026-01-01:101.25 price=37.151935 prints=74780
base periodic dated=2020-01-01 first=2020-07-01 maturity=2034-07-01
coupon=6.125 settle=2024-06-23 price=179.479257 prints=-1281
coupon=4.56789 settle=2024-01-08 price=6.224083 prints=74692
base periodic dated=2020-01-01 first=2020-07-01 maturity=2030-07-01
coupon=4.56789 settle=2024-03-17 price=83.207044 prints=8018
base periodic dated=2020-01-01 first=2020-07-01 maturity=2026-01-01
coupon=2.75 settle=2024-02-22 price=32.971496 prints=75341
base periodic dated=2020-01-01 first=2020-07-01 maturity=2054-07-01
coupon=5 settle=2024-02-04 price=650.391201 prints=-4040
coupon=3 settle=2024-06-28 price=42.769293 prints=8114
base zero dated=2020-01-01 maturity=2025-07-01
settle=2024-02-25 price=93.63483 prints=4932";

/// Prices within 10^-9 dollars of a boundary and on none, as the ends of `Horner` decide them.
///
/// Another encloser may leave others of them unsure.
pub const NEAR_CASES: &str = "\
# The least price, where boundaries lie closer together than that
base zero dated=1990-01-01 maturity=2040-01-01
settle=1990-01-01 price=0.000001 prints=40453
base periodic dated=1990-01-01 first=1990-07-01 maturity=2040-01-01
coupon=0.0000001 settle=1990-04-01 price=0.000001 prints=41343
# Told by the ends
base periodic dated=2020-01-01 first=2020-07-01 maturity=2026-01-01
coupon=1.1 settle=2024-04-01 price=43.932984 prints=54873
coupon=1.4375 settle=2024-04-01 price=61.383213 prints=31899
coupon=1.55 settle=2024-04-01 price=87.608314 prints=9390
coupon=1.8875 settle=2024-04-01 price=89.984567 prints=8141
coupon=2.2 settle=2024-04-01 price=58.804292 prints=35871
coupon=2.4625 settle=2024-04-01 price=56.068375 prints=39544
coupon=2.55 settle=2024-04-01 price=73.370923 prints=21613
base periodic dated=2020-01-01 first=2020-07-01 maturity=2034-01-01
coupon=2.4625 settle=2024-02-16 price=2.499049 prints=98223
base periodic dated=1990-01-01 first=1990-07-01 maturity=2040-01-01
coupon=0.7 settle=1990-04-01 price=8.353627 prints=9440
coupon=0.95 settle=1990-04-01 price=135.023456 prints=208
coupon=1.1125 settle=1990-04-01 price=1.146902 prints=94778
coupon=1.525 settle=1990-04-01 price=3.881998 prints=39112
coupon=1.5625 settle=1990-04-01 price=256.809147 prints=-917
coupon=2.225 settle=1990-04-01 price=2.293804 prints=94778
coupon=2.35 settle=1990-04-01 price=3.314045 prints=69982
# Held between the ends
base periodic dated=2020-01-01 first=2020-07-01 maturity=2034-01-01
coupon=0.3625 settle=2024-02-16 price=58.490511 unsure=5992
coupon=2.95 settle=2024-02-16 price=13.378836 unsure=33000
base periodic dated=1990-01-01 first=1990-07-01 maturity=2040-01-01
coupon=2.825 settle=1990-04-01 price=984.624247 unsure=-3544
coupon=2.9875 settle=1990-04-01 price=603.535532 unsure=-2328
# Held between the ends, at the first boundary of the range and at the last
base periodic dated=2020-01-01 first=2020-07-01 maturity=2026-01-01
coupon=29.20569 settle=2024-04-01 price=163.435434 unsure=-5001
coupon=9.2284813 settle=2024-04-01 price=126.383047 unsure=-5001
coupon=7.6346171 settle=2024-04-01 price=29.787131 unsure=100000
coupon=9.5860621 settle=2024-04-01 price=31.217184 unsure=100000
base periodic dated=2020-01-01 first=2020-07-01 maturity=2044-01-01
coupon=7.632101 settle=2024-04-01 price=534.202285 unsure=-5001
coupon=18.742246 settle=2024-04-01 price=916.082332 unsure=-5001
base periodic dated=2020-01-01 first=2020-07-01 maturity=2034-01-01
coupon=17.9513016 settle=2024-02-16 price=17.649683 unsure=100000";
